// One turn of a walk that ends when it is back at its start: the step from a place, and whether that leads to the start's facet. Nothing is
// written here: Trace writes the place before it, and whoever looks for something along a curve writes nothing.
// Four walks go over it, each with a loop of its own, since each knows something else of the rest of the trace: one loop with a closure would take that
// as an argument for proofs alone, and be no plainer. Start and cells stay parameters: a struct that holds the lent cells is known only through its
// reference (as in the crate writer).

#![tactic(auto)]

ghost use Rattle.step.specs.Held.{Held};
ghost use Rattle.places.specs.Held.{place_as};
ghost use Rattle.carried.specs.Carries.{Carries};
ghost use Rattle.ahead.specs.Visited.{VisitedIs};

use carried::Entered;
use job::OpenJob;
use paper::{HeldPlace, Verdict};

// After a place is visited: edge or limit, then loop, else the place to be visited next.
pub fn look_ahead(
    job: OpenJob<'_>,
    start: HeldPlace,
    here: Entered,
    cells: &mut [i64; 15],
) -> Result<Entered, Verdict>
    requires { (Held job.bytes.now job.n start) × (Carries job.bytes.now job.n here cells.old) }
    ensures { VisitedIs job.entry.bytes.now job.entry.n (place_as job.entry.n start) (place_as job.entry.n here.place) result cells.new }
{
    let next = carried::onward(job, here, cells)?;
    if places::same_facet(job.n, next.place, start) {
        Err(Verdict::Loop)
    } else {
        Ok(next)
    }
}
