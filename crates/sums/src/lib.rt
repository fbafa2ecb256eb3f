// The running sum of a polynomial of a job at a vertex, from its last term to its first: request 2.8.

#![tactic(auto)]

ghost use Rattle.std.specs.Prelude.{◌≡◌};
ghost use Rattle.paper.specs.Answers.{summed_as};
ghost use Rattle.paper.specs.RunningSum.{running_summed};

use job::OpenJob;
use paper::{Refusal, Vertex};

// The exact sum of the last so many terms of a polynomial, numbered from 0; 12 if there is no such polynomial or it has not so many terms,
// then 9 if the vertex lies outside the box.
pub fn running_sum(job: &[u8], index: usize, v: Vertex, terms: usize) -> Result<i64, Refusal>
    ensures { summed_as result ≡ running_summed job.now index v.coordinates terms }
{
    let open = OpenJob::open(job)?;
    if open.n - 1 <= index {
        return Err(Refusal::Index);
    }
    let body = open.body(index + 1);
    if body.len() / 8 < terms {
        return Err(Refusal::Index);
    }
    if !field::vertex_inside(open, v) {
        return Err(Refusal::Outside);
    }
    Ok(polynomial::running_sum(body, open.n, v, terms))
}
