// Where in its job a body lies, as a struct of numbers, for C. It stands apart from the C functions, since an edit checks its whole crate again.

#![tactic(auto)]

ghost use Rattle.std.specs.Prelude.{◌≡◌, ◌+◌, ◌≤◌, length, take, drop};
ghost use Rattle.paper.specs.Operations.{body_part};
ghost use Rattle.jobnumbers.specs.Numbers.{body_entry, body_numbers};

use bits::read;
use jobnumbers::BodyAnswer;

// Body: where in the job the body lies; it is never outside the job.
pub fn body_entry(job: &[u8], index: u64) -> BodyAnswer
    ensures numbers { result ≡ body_numbers (body_entry job.now index) }
    ensures part { take result.length (drop result.offset job.now) ≡ body_part job.now index }
    ensures inside { result.offset + result.length ≤ length job.now }
{
    let k = index as usize;
    match body::body_refusal(job, k) {
        Some(refusal) => BodyAnswer {
            refusal: refusal.number(),
            ..BodyAnswer::default()
        },
        None => BodyAnswer {
            refusal: 0,
            offset: read::word(job, 4 * k + 4),
            length: read::word(job, 4 * k + 6),
        },
    }
}
