// A walk along the loop of one place past another place: whether the other lies on the same loop, and if not, whether it is inside. By one walk
// that counts the edges ahead in the row: no facet is held but the one where it stands, and nothing is written.

#![tactic(auto)]

ghost use Rattle.std.specs.Prelude.{◌≡◌};
ghost use Rattle.paper.specs.Job.{decode_place};
ghost use Rattle.paper.specs.Operations.{point_refusal};
ghost use Rattle.places.specs.Held.{vertex_as, facet_as, place_as};
ghost use Rattle.carried.specs.Carries.{Carries};
ghost use Rattle.loops.specs.Past.{ahead_in_row, edge_ahead, told_of};

use carried::Entered;
use job::OpenJob;
use paper::{HeldPlace, Vertex};

// What a walk along a loop tells of a place: it lies on that loop, or its lowest vertex is inside or outside.
#[derive(Clone, Copy, Debug, PartialEq, Eq)]
pub enum Past {
    Same,
    Inside,
    Outside,
}

// The vertex w has the same y as v and no smaller x.
fn ahead_in_row(v: Vertex, w: Vertex) -> bool
    ensures { result ≡ ahead_in_row (vertex_as 2 v) (vertex_as 2 w) }
{
    v.coordinates[0] <= w.coordinates[0] && v.coordinates[1] == w.coordinates[1]
}

// The facet is an edge ahead of a vertex in its row.
fn edge_ahead(here: HeldPlace, low: Vertex) -> bool
    ensures { result ≡ edge_ahead (vertex_as 2 low) (facet_as 2 here) }
{
    here.masks[0] == 1 && ahead_in_row(low, here.low)
}

// The walk from a place with what is carried there.
fn walk_past(job: OpenJob<'_>, start: Entered, past: HeldPlace, cells: &mut [i64; 15]) -> Past
    requires dimension { job.n ≡ 2 }
    requires carries { Carries job.bytes.now 2 start cells.old }
    ensures { result ≡ told_of job.entry.bytes.now (place_as 2 past) (place_as 2 start.place) }
{
    let first = start.place;
    let mut here = start;
    let mut odd = false;
    loop {
        if places::same_facet(2, here.place, past) {
            return Past::Same;
        }
        odd ^= edge_ahead(here.place, past.low);
        match ahead::look_ahead(job, first, here, cells) {
            Ok(next) => here = next,
            Err(_) => return if odd { Past::Inside } else { Past::Outside },
        }
    }
}

// The walk along the loop of one place past another, both handed over as bytes and neither refused by Point, in a job of dimension 2.
pub fn walk_along(job: OpenJob<'_>, outer: &[u8], inner: &[u8]) -> Past
    requires dimension { job.n ≡ 2 }
    requires outer_value { (point_refusal job.bytes.now outer.now ≡ 0) × (point_refusal job.bytes.now inner.now ≡ 0) }
    ensures { result ≡ told_of job.entry.bytes.now (decode_place 2 inner.now) (decode_place 2 outer.now) }
{
    let mut cells = [0i64; 15];
    let here = located::crossing_in(job, outer, &mut cells).unwrap();
    let past = places::read_place(2, inner);
    let start = carried::enter(2, here, &mut cells);
    walk_past(job, start, past, &mut cells)
}
