// A place handed over as bytes, in a job that has opened, with the refusals 13, 9, 10 and 11 in the paper's order: what Judge, Point, Step, Trace
// and Pen share.

#![tactic(auto)]

ghost use Rattle.determinants.specs.Cells.{Cells};
ghost use Rattle.located.specs.Located.{PlaceFound, Crosses};

use job::OpenJob;
use paper::{HeldPlace, Refusal};

// What Judge refuses, in a job that has opened: 13 the place is not 3n bytes or is malformed; 9 a vertex outside the box; 10 a vertex value
// not readable. If it refuses nothing, the cells hold the values at the facet's vertices.
#[tactic(auto, using(crate::proofs::PlaceFound::place_steps))]
pub fn place_in(job: OpenJob<'_>, p: &[u8], cells: &mut [i64; 15]) -> Result<HeldPlace, Refusal>
    requires { Cells job.n cells.old }
    ensures { PlaceFound job.entry.n job.entry.bytes.now p.now result cells.new }
{
    if p.len() != 3 * job.n || !places::place_ok(job.n, p) {
        return Err(Refusal::Place);
    }
    let place = places::read_place(job.n, p);
    columns::facet_values(job, place, cells)?;
    Ok(place)
}

// What Point, Step and Pen refuse: behind Judge's refusals 11 not crossed.
pub fn crossing_in(job: OpenJob<'_>, p: &[u8], cells: &mut [i64; 15]) -> Result<HeldPlace, Refusal>
    requires { Cells job.n cells.old }
    ensures { Crosses job.entry.n job.entry.bytes.now p.now result cells.new }
{
    let place = place_in(job, p, cells)?;
    if facets::crossed(job.n, cells, job.n) {
        Ok(place)
    } else {
        Err(Refusal::NotCrossed)
    }
}
