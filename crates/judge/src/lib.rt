// Judge and Point of document 01; the refusals of a place come behind those of Open.

#![tactic(auto)]

ghost use Rattle.std.specs.Prelude.{◌≡◌};
ghost use Rattle.paper.specs.Operations.{judged, pointed};
ghost use Rattle.paper.specs.Answers.{judged_as, pointed_as, padded_point};
ghost use Rattle.grounds.specs.Judged.{judged_by, plainly};

use job::OpenJob;
use located::{crossing_in, place_in};
use paper::{Refusal, StepPoint};

// Judge: crossed or not crossed.
pub fn judge(job: &[u8], place: &[u8]) -> Result<bool, Refusal>
    ensures answer { judged_as result ≡ judged job.now place.now }
    ensures agrees { judged_as result ≡ plainly (judged_by job.now place.now) }
{
    let job = OpenJob::open(job)?;
    let mut cells = [0i64; 15];
    place_in(job, place, &mut cells)?;
    Ok(facets::crossed(job.n, &cells, job.n))
}

// Point, in a job that has opened.
pub fn point_in(job: OpenJob<'_>, place: &[u8]) -> Result<StepPoint, Refusal>
    ensures { pointed_as result ≡ padded_point (pointed job.entry.bytes.now place.now) }
{
    let mut cells = [0i64; 15];
    let here = crossing_in(job, place, &mut cells)?;
    Ok(points::point(job.n, here, &cells))
}

// Point: the point in steps of 1/1024.
pub fn point(job: &[u8], place: &[u8]) -> Result<StepPoint, Refusal>
    ensures { pointed_as result ≡ padded_point (pointed job.now place.now) }
{
    point_in(OpenJob::open(job)?, place)
}
