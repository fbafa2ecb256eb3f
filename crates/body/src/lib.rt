// Body of document 01: the part of a job that holds a body.

#![tactic(auto)]

ghost use Rattle.std.specs.Prelude.{◌≡◌, MatchOption};
ghost use Rattle.paper.specs.Job.{entry_offset, body};
ghost use Rattle.paper.specs.Operations.{body_refusal, body_part};
ghost use Rattle.paper.specs.Refusals.{RefusedOr, refusal_number};
ghost use Rattle.entries.specs.Parts.{BeginsAt};
ghost use Rattle.body.specs.PartOffset.{part_offset, PartOf};

use job::OpenJob;
use paper::Refusal;

// Body: the part of the job that holds body k, or a refusal: Open's, then 12 if the index is not under n + 1.
fn part(job: &[u8], k: usize) -> Result<&[u8], Refusal>
    ensures { RefusedOr (body_refusal job.entry.now k) (PartOf job.entry k) result }
{
    let job = OpenJob::open(job)?;
    if job.n < k {
        return Err(Refusal::Index);
    }
    Ok(job.body(k))
}

// Body's refusal, if it has one.
pub fn body_refusal(job: &[u8], k: usize) -> Option<Refusal>
    ensures { MatchOption result (body_refusal job.now k ≡ 0) (λ e. refusal_number e ≡ body_refusal job.now k) }
{
    part(job, k).err()
}

// Body's answer: the part of the job that holds body k, empty for a refusal.
pub fn body_part(job: &[u8], k: usize) -> &[u8]
    ensures place { BeginsAt job.entry (part_offset job.now k) result }
    ensures bytes { result.now ≡ body_part job.now k }
{
    part(job, k).unwrap_or(&job[0..0])
}
