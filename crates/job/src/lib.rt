// Open of document 01: a job's bytes tested in the paper's order, and what a job that opens gives.

#![tactic(auto)]

ghost use Rattle.std.specs.Prelude.{◌≡◌, ◌≤◌};
ghost use Rattle.paper.specs.Job.{bias, entry_offset, body, open_refusal};
ghost use Rattle.paper.specs.Operations.{answered, polynomial_terms, open_values, opened};
ghost use Rattle.paper.specs.Refusals.{RefusedOr};
ghost use Rattle.paper.specs.Answers.{opened_as, opened_list};
ghost use Rattle.entries.specs.Parts.{BeginsAt};
ghost use Rattle.job.specs.OpenJob.{JobOf};

use bits::read;
use paper::{Opened, Refusal};

// A job that has opened: its bytes and its dimension.
#[derive(Clone, Copy)]
pub struct OpenJob<'a> {
    pub bytes: &'a [u8],
    pub n: usize,
    pub ghost opened: { JobOf n bytes.now },
}

impl<'a> OpenJob<'a> {
    // Open's tests, in rising number.
    pub fn open(bytes: &'a [u8]) -> Result<OpenJob<'a>, Refusal>
        ensures { RefusedOr (open_refusal bytes.entry.now) (λ job. job.bytes ≡ bytes.entry) result }
    {
        if bytes.len() < 4 {
            return Err(Refusal::Short);
        }
        if read::byte(bytes, 0) != 1 {
            return Err(Refusal::Version);
        }
        let n = read::byte(bytes, 1) as usize;
        if !limits::dimension_ok(n) {
            return Err(Refusal::Dimension);
        }
        if read::byte(bytes, 2) as usize != n + 1 {
            return Err(Refusal::EntryCount);
        }
        bodytests::test_bodies(n, bytes)?;
        Ok(OpenJob { bytes, n })
    }

    // The bias.
    pub fn bias(self) -> u64
        ensures { result ≡ bias self.entry.bytes.now }
    {
        read::byte(self.bytes, 3)
    }

    // Body k.
    pub fn body(self, k: usize) -> &'a [u8]
        requires { k ≤ self.n }
        ensures place { BeginsAt self.entry.bytes (entry_offset self.entry.bytes.now k) result }
        ensures bytes { result.now ≡ body self.entry.bytes.now k }
    {
        entries::part_of(self.bytes, k)
    }

    // The count of terms of polynomial k; 0 if the job has no such polynomial.
    pub fn polynomial_terms(self, k: usize) -> u64
        ensures { result ≡ polynomial_terms self.entry.bytes.now k }
    {
        if k < self.n {
            (self.body(k).len() / 8) as u64
        } else {
            0
        }
    }

    // Open's answer: n and each polynomial's count of terms.
    pub fn values(self) -> Opened
        ensures { answered (opened_list result) ≡ answered (open_values self.entry.bytes.now) }
    {
        Opened {
            n: self.n as u64,
            terms: [
                self.polynomial_terms(1),
                self.polynomial_terms(2),
                self.polynomial_terms(3),
            ],
        }
    }
}

// Open: the refusal, or n and each polynomial's count of terms.
#[tactic(auto, using(paper::proofs::Refused::refusal_some, paper::proofs::Refusals::unless_refused, paper::proofs::Refusals::unless_answered), unfolding(paper::specs::Answers::opened_as, paper::specs::Refusals::answer_by, paper::specs::Operations::opened))]
pub fn open(job: &[u8]) -> Result<Opened, Refusal>
    ensures { opened_as result ≡ opened job.now }
{
    Ok(OpenJob::open(job)?.values())
}
