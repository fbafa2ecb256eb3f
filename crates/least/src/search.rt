// Whether a crossed facet is the least of its seam: its curve is walked both ways in turn, one step each, until a facet before it is met, or one
// walk closes, or both have ended. Nothing is written, and no table of visited facets is held. In turn, since one way to its end and then the
// other takes as many steps for each facet as the curve has facets.

ghost use Rattle.std.specs.Prelude.{◌≡◌, ℕ, ◌≤◌};
ghost use Rattle.curves.specs.Grid.{turn};
ghost use Rattle.places.specs.Held.{facet_as, place_as};
ghost use Rattle.step.specs.Held.{Held};
ghost use Rattle.least.specs.Search.{least_in, clear_from, Walks, SoughtIs, HoldsFacet};
ghost use Rattle.least.specs.Ends.{end_of};

use crate::order;
use carried::Entered;
use job::OpenJob;
use paper::{HeldPlace, Verdict};

// How a walk is over: a facet before the start's is met, the walk is back at the start, or it has ended.
#[derive(Clone, Copy, Debug, PartialEq, Eq)]
pub enum End {
    Before,
    Closed,
    Ended,
}

impl From<Verdict> for End {
    ghost from_gives = { λ verdict end. end ≡ end_of verdict };

    fn from(verdict: Verdict) -> End {
        match verdict {
            Verdict::Loop => End::Closed,
            Verdict::Edge | Verdict::Limit | Verdict::Full => End::Ended,
        }
    }
}

// One turn of a walk.
fn seek(
    job: OpenJob<'_>,
    start: HeldPlace,
    here: Entered,
    cells: &mut [i64; 15],
) -> Result<Entered, End>
    requires { Walks job.bytes.now job.n start here cells.old }
    ensures { SoughtIs job.entry.bytes.now job.entry.n start (place_as job.entry.n here.place) result cells.new }
{
    let next = ahead::look_ahead(job, start, here, cells)?;
    if order::facet_before(job.n, next.place, start) {
        return Err(End::Before);
    }
    Ok(next)
}

// One walk to its end: it meets no facet before its start's.
fn rest_clear(job: OpenJob<'_>, start: HeldPlace, from: Entered, cells: &mut [i64; 15]) -> bool
    requires { Walks job.bytes.now job.n start from cells.old }
    ensures { result ≡ clear_from job.entry.bytes.now (place_as job.entry.n start) (place_as job.entry.n from.place) }
{
    let mut here = from;
    loop {
        match seek(job, start, here, cells) {
            Ok(next) => here = next,
            Err(end) => return end != End::Before,
        }
    }
}

// The same facet with the other side.
fn turned(p: HeldPlace) -> HeldPlace
    requires { p.side ≤ 1 }
    ensures { ((n : ℕ) → place_as n result ≡ turn (place_as n p)) × (result.low ≡ p.low) }
{
    HeldPlace {
        side: 1 - p.side,
        ..p
    }
}

// A crossed facet, given with side 0 and its columns twice, is the least of its seam. Where the curve closes, the first walk is back first, so that
// the second's closing needs no answer of its own.
pub fn is_least(job: OpenJob<'_>, p: HeldPlace, front: &mut [i64; 15], back: &mut [i64; 15]) -> bool
    requires held { (Held job.bytes.now job.n p) × (p.side ≡ 0) }
    requires holds_facet { (HoldsFacet job.bytes.now job.n (facet_as job.n p) front.old) × (HoldsFacet job.bytes.now job.n (facet_as job.n p) back.old) }
    ensures { result ≡ least_in job.entry.bytes.now (facet_as job.entry.n p) }
{
    let q = turned(p);
    let mut ahead = carried::enter(job.n, p, front);
    let mut behind = carried::enter(job.n, q, back);
    loop {
        match seek(job, p, ahead, front) {
            Ok(next) => ahead = next,
            Err(End::Before) => return false,
            Err(End::Closed) => return true,
            Err(End::Ended) => return rest_clear(job, q, behind, back),
        }
        match seek(job, q, behind, back) {
            Ok(next) => behind = next,
            Err(end) => return end != End::Before && rest_clear(job, p, ahead, front),
        }
    }
}
