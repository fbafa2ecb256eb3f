// The small bench cutter, request 2.10: Open and Trace of document 01 with one more test behind Open's.

#![tactic(auto)]

mod sizes;

ghost use Rattle.std.specs.Prelude.{◌≡◌};
ghost use Rattle.paper.specs.Operations.{space_of, verdict_and_count, buffer_after};
ghost use Rattle.paper.specs.Refusals.{RefusedOr};
ghost use Rattle.paper.specs.Answers.{opened_as, traced_as};
ghost use Rattle.small.specs.Small.{small_refusal, small_opened, small_traced};

use job::OpenJob;
use paper::{Opened, Refusal, Traced};

// A job that the small cutter takes: Open's refusal, then 17.
fn opened(job: &[u8]) -> Result<OpenJob<'_>, Refusal>
    ensures { RefusedOr (small_refusal job.entry.now) (λ taken. taken.bytes ≡ job.entry) result }
{
    let job = OpenJob::open(job)?;
    if sizes::job_small(job) {
        Ok(job)
    } else {
        Err(Refusal::SmallCutter)
    }
}

// The small cutter's Open.
#[tactic(auto, using(crate::proofs::SmallAnswers::open_answers), unfolding(paper::specs::Answers::opened_as, paper::specs::Refusals::answer_by))]
pub fn open(job: &[u8]) -> Result<Opened, Refusal>
    ensures { opened_as result ≡ small_opened job.now }
{
    Ok(opened(job)?.values())
}

// The small cutter's Trace. A refusal touches nothing, and bytes past the last place written keep their values.
#[tactic(auto, using(crate::proofs::SmallAnswers::trace_answers), unfolding(paper::specs::Answers::traced_as, paper::specs::Refusals::answer_by, paper::specs::Operations::verdict_and_count, paper::specs::Operations::buffer_after))]
pub fn trace(job: &[u8], buffer: &mut [u8]) -> Result<Traced, Refusal>
    ensures answer { traced_as result ≡ verdict_and_count (small_traced job.now (space_of job.now buffer.old)) }
    ensures written { buffer.new ≡ buffer_after (small_traced job.now (space_of job.now buffer.old)) buffer.old }
{
    trace::trace_in(opened(job)?, buffer)
}
