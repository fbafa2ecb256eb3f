// Open's tests of the contents and the bodies, refusals 5 to 8, in the paper's order.

#![tactic(auto)]

ghost use Rattle.std.specs.Prelude.{◌≡◌, ℕ, List, ◌*◌, ◌≤◌, length};
ghost use Rattle.paper.specs.Refusals.{RefusedOr};
ghost use Rattle.bits.specs.Axes.{Axes};
ghost use Rattle.bodytests.specs.BodyTests.{bodies_refusal, forms_refusal};

use paper::Refusal;

// Refusals 6 to 8 of n + 1 bodies of the right lengths, handed over by index: box, terms, start.
pub fn test_forms<'a, F: Fn(usize) -> &'a [u8]>(n: usize, body: F) -> Result<(), Refusal>
    requires axes { Axes n }
    requires callable { (k : ℕ) → k ≤ n → F.pre body k }
    requires bounds { (b : _) → F.post body 0 b → length b.now ≡ 4 * n }
    requires start { (b : _) → F.post body n b → length b.now ≡ 3 * n }
    ensures { (f : ℕ → List ℕ) → ((k : ℕ) (b : _) → k ≤ n → F.post body k b → b.now ≡ f k) → RefusedOr (forms_refusal n f) (λ _. Unit {0}) result }
{
    if !boxes::box_ok(n, body(0)) {
        return Err(Refusal::Bounds);
    }
    for k in 1..n {
        if !terms::polynomial_ok(n, body(k)) {
            return Err(Refusal::Terms);
        }
    }
    if !places::place_ok(n, body(n)) {
        return Err(Refusal::Start);
    }
    Ok(())
}

// Open's refusals 5 to 8: contents, box, terms, start.
pub fn test_bodies(n: usize, job: &[u8]) -> Result<(), Refusal>
    requires { Axes n }
    ensures { RefusedOr (bodies_refusal n job.now) (λ _. Unit {0}) result }
{
    if !entries::contents_ok(n, job) {
        return Err(Refusal::Contents);
    }
    test_forms(n, |k| entries::part_of(job, k))
}
