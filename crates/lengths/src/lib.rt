// The verdict of a trace and the count of its places, without writing one: there is no buffer, so the walk ends where the trace with space for
// everything ends.

#![tactic(auto)]

ghost use Rattle.std.specs.Prelude.{◌≡◌};
ghost use Rattle.paper.specs.Operations.{answered, verdict_and_count};
ghost use Rattle.paper.specs.Answers.{traced_as, verdict_count};
ghost use Rattle.places.specs.Held.{place_as};
ghost use Rattle.carried.specs.Carries.{Carries};
ghost use Rattle.seamlist.specs.WholeTrace.{whole_trace};
ghost use Rattle.lengths.specs.Length.{traced_from};

use carried::Entered;
use job::OpenJob;
use paper::{Refusal, Traced};

// The walk from a place with what is carried there.
fn walk_length(job: OpenJob<'_>, start: Entered, cells: &mut [i64; 15]) -> Traced
    requires { Carries job.bytes.now job.n start cells.old }
    ensures { answered (verdict_count result) ≡ verdict_and_count (answered (whole_trace job.entry.bytes.now (place_as job.entry.n start.place))) }
{
    let first = start.place;
    let mut here = start;
    let mut count: u64 = 0;
    loop {
        let after = ahead::look_ahead(job, first, here, cells);
        count += 1;
        match after {
            Ok(next) => here = next,
            Err(verdict) => return Traced { verdict, count },
        }
    }
}

// The trace from a place handed over as bytes: what Point refuses, or the verdict and the count of places.
pub fn trace_length(job: OpenJob<'_>, place: &[u8]) -> Result<Traced, Refusal>
    ensures { traced_as result ≡ verdict_and_count (traced_from job.entry.bytes.now place.now) }
{
    let mut cells = [0i64; 15];
    let here = located::crossing_in(job, place, &mut cells)?;
    let start = carried::enter(job.n, here, &mut cells);
    Ok(walk_length(job, start, &mut cells))
}
