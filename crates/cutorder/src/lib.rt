// Whether an order of cutting stands: inner loops before outer. The list is gone through position by position.

#![tactic(auto)]

ghost use Rattle.std.specs.Prelude.{◌≡◌};
ghost use Rattle.paper.specs.Refusals.{answer_by};
ghost use Rattle.nesting.specs.CutOrder.{ordered};
ghost use Rattle.nesting.specs.Answers.{ordered_as};
ghost use Rattle.cutorder.specs.Ordering.{earlier_of, ordered_in};

use job::OpenJob;
use paper::Refusal;

// The earlier of two positions, of which there may be one or none.
fn earlier(first: Option<usize>, outer: Option<usize>) -> Option<usize>
    ensures { result ≡ earlier_of first outer }
{
    match (first, outer) {
        (Some(i), Some(j)) => Some(i.min(j)),
        _ => first.or(outer),
    }
}

// All positions, in a job of dimension 2 and a list of whole places.
fn order_in(job: OpenJob<'_>, places: &[u8]) -> Result<Option<u64>, Refusal>
    requires { job.n ≡ 2 }
    ensures { ordered_as result ≡ ordered_in job.entry.bytes.now places.now }
{
    let mut first = None;
    for k in 0..places.len() / 6 {
        let outer = positions::at_position(job, places, k)?;
        first = earlier(first, outer);
    }
    Ok(first.map(|k| k as u64))
}

// Whether the order stands: Open's refusals; 3 for another dimension; 13 if the list's length is not a multiple of 3n; then position by position.
pub fn cut_order(job: &[u8], places: &[u8]) -> Result<Option<u64>, Refusal>
    ensures { ordered_as result ≡ ordered job.now places.now }
{
    let job = OpenJob::open(job)?;
    if job.n != 2 {
        return Err(Refusal::Dimension);
    }
    if places.len() % 6 != 0 {
        return Err(Refusal::Place);
    }
    order_in(job, places)
}
