// Loose bodies by index, and their tests: what opening the job from them would refuse, before a byte of it is written. Bodies come as an array, body k
// at index k: box, polynomials, start; those past index n are not read.

#![tactic(auto)]

ghost use Rattle.std.specs.Prelude.{◌≡◌, true, ◌+◌, length};
ghost use Rattle.paper.specs.Job.{contents_end};
ghost use Rattle.paper.specs.Refusals.{RefusedOr};
ghost use Rattle.bits.specs.Axes.{Axes};
ghost use Rattle.assembly.specs.Assembled.{handed, bodies_of};
ghost use Rattle.assembly.specs.LooseRefusal.{lengths_ok, form_refusal};
ghost use Rattle.laying.specs.Laid.{body_at};
ghost use Rattle.loose.specs.Arranged.{Arranged};

use paper::Refusal;

// The bodies by index. The start stands at every index behind its own as well. Five slices, not an array of polynomials: so C hands them over.
pub fn arranged<'a>(
    n: usize,
    bounds: &'a [u8],
    polynomial1: &'a [u8],
    polynomial2: &'a [u8],
    polynomial3: &'a [u8],
    start: &'a [u8],
) -> [&'a [u8]; 5]
    requires { Axes n }
    ensures { Arranged (handed n 0 bounds.now polynomial1.now polynomial2.now polynomial3.now start.now) (body_at result) }
{
    match n {
        2 => [bounds, polynomial1, start, start, start],
        3 => [bounds, polynomial1, polynomial2, start, start],
        _ => [bounds, polynomial1, polynomial2, polynomial3, start],
    }
}

// Every body's length is right for its kind.
fn lengths_ok(n: usize, bodies: [&[u8]; 5]) -> bool
    requires { Axes n }
    ensures { result ≡ lengths_ok n (body_at bodies.entry) }
{
    (0..n + 1).all(|k| entries::length_ok(n, k, bodies[k].len()))
}

// The refusals 5 to 8: lengths, box, terms, start.
pub fn test_form(n: usize, bodies: [&[u8]; 5]) -> Result<(), Refusal>
    requires { Axes n }
    ensures { RefusedOr (form_refusal n (body_at bodies.entry)) (λ _. Unit {0}) result }
{
    if !lengths_ok(n, bodies) {
        return Err(Refusal::Contents);
    }
    bodytests::test_forms(n, |k| bodies[k])
}

// The length of the job. A loop: of a `sum` of lengths the bound would have to be known beforehand.
pub fn job_length(n: usize, bodies: [&[u8]; 5]) -> usize
    requires { (Axes n) × (lengths_ok n (body_at bodies) ≡ true) }
    ensures { result ≡ contents_end n + length (bodies_of (body_at bodies.entry) 0 (n + 1)) }
{
    let mut length = 4 * n + 8;
    for k in 0..n + 1 {
        length += bodies[k].len();
    }
    length
}
