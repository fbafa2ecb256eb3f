// Trace of document 01.

#![tactic(auto)]

ghost use Rattle.std.specs.Prelude.{◌≡◌};
ghost use Rattle.paper.specs.Operations.{traced, space_of, verdict_and_count, buffer_after};
ghost use Rattle.paper.specs.Answers.{traced_as};

use job::OpenJob;
use paper::{Refusal, Traced};

// Trace, in a job that has opened.
pub fn trace_in(job: OpenJob<'_>, buffer: &mut [u8]) -> Result<Traced, Refusal>
    ensures answer { traced_as result ≡ verdict_and_count (traced job.entry.bytes.now (space_of job.entry.bytes.now buffer.old)) }
    ensures written { buffer.new ≡ buffer_after (traced job.entry.bytes.now (space_of job.entry.bytes.now buffer.old)) buffer.old }
{
    let mut cells = [0i64; 15];
    let here = located::crossing_in(job, job.body(job.n), &mut cells)?;
    let start = carried::enter(job.n, here, &mut cells);
    Ok(walks::walk(job, start, &mut cells, buffer))
}

// Trace: the refusal, or the verdict and the count of the places written to the buffer from its front on. A refusal
// touches nothing, and bytes past the last place written keep their values.
pub fn trace(job: &[u8], buffer: &mut [u8]) -> Result<Traced, Refusal>
    ensures answer { traced_as result ≡ verdict_and_count (traced job.now (space_of job.now buffer.old)) }
    ensures written { buffer.new ≡ buffer_after (traced job.now (space_of job.now buffer.old)) buffer.old }
{
    trace_in(OpenJob::open(job)?, buffer)
}
