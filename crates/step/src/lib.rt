// Step of document 01: the place on the other crossed facet of the simplex that lies on a place's side.

#![tactic(auto)]

ghost use Rattle.std.specs.Prelude.{◌≡◌};
ghost use Rattle.paper.specs.Operations.{stepped};
ghost use Rattle.paper.specs.Answers.{stepped_as, padded_step};

use job::OpenJob;
use paper::{HeldPlace, Refusal, Stop};

// What lies ahead of a place.
pub mod ahead;

// Step: the refusal, or edge, limit, or the place of the other crossed facet of the simplex on the place's side. One result in the other, since a
// refusal is no answer and a stop is one.
pub fn step(job: &[u8], place: &[u8]) -> Result<Result<HeldPlace, Stop>, Refusal>
    ensures { stepped_as result ≡ padded_step (stepped job.now place.now) }
{
    let job = OpenJob::open(job)?;
    let mut cells = [0i64; 15];
    let here = located::crossing_in(job, place, &mut cells)?;
    Ok(ahead::onward(job, here).map(|next| places::answer_place(job.n, next)))
}
