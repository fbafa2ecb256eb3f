// One position of a list that is to be cut: its loop is compared with those of all earlier positions, by a walk along each of them. There is no
// buffer, so a loop is walked again for each place behind it.

#![tactic(auto)]

ghost use Rattle.std.specs.Prelude.{◌≡◌, suc};
ghost use Rattle.paper.specs.Refusals.{RefusedOr};
ghost use Rattle.nesting.specs.CutOrder.{position_refusal};
ghost use Rattle.positions.specs.Positions.{outer_of, compared_refusal, Lists, TakesUpTo};

use job::OpenJob;
use loops::Past;
use paper::{Refusal, Verdict};

// The loop of position k against those of all earlier positions, from the last on, so that the one kept is the first: 18 if it is one of them, else the first around it, if any.
fn compared(job: OpenJob<'_>, places: &[u8], k: usize) -> Result<Option<usize>, Refusal>
    requires dimension { job.n ≡ 2 }
    requires before { (Lists places.now k) × (TakesUpTo job.bytes.now places.now (suc k)) }
    ensures { RefusedOr (compared_refusal job.entry.bytes.now places.now k) (λ outer. outer ≡ outer_of job.entry.bytes.now places.now k) result }
{
    let place = &places[6 * k..6 * k + 6];
    let mut outer = None;
    for j in (0..k).rev() {
        match loops::walk_along(job, &places[6 * j..6 * j + 6], place) {
            Past::Same => return Err(Refusal::NoNewLoop),
            Past::Inside => outer = Some(j),
            Past::Outside => {}
        }
    }
    Ok(outer)
}

// Position k, where all earlier ones are refused nothing: 13, 9, 10, 11, and 18 if the trace is no loop or the loop already came; else the first
// position whose loop has this one's inside, if any.
pub fn at_position(job: OpenJob<'_>, places: &[u8], k: usize) -> Result<Option<usize>, Refusal>
    requires dimension { job.n ≡ 2 }
    requires before { (Lists places.now k) × (TakesUpTo job.bytes.now places.now k) }
    ensures { RefusedOr (position_refusal job.entry.bytes.now places.now k) (λ outer. outer ≡ outer_of job.entry.bytes.now places.now k) result }
{
    let traced = lengths::trace_length(job, &places[6 * k..6 * k + 6])?;
    if traced.verdict != Verdict::Loop {
        return Err(Refusal::NoNewLoop);
    }
    compared(job, places, k)
}
