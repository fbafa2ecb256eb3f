// The term list of a polynomial, as the answer to a formula holds it. What it is, is defined in the crate formula, specs/Read.antt.

#![tactic(auto)]

ghost use Rattle.std.specs.Prelude.{◌≡◌, ◌+◌, ◌<◌, ◌≤◌, length};
ghost use Rattle.std.proofs.lemmas.List.Edits.{sets};
ghost use Rattle.exact.specs.Size.{Size};
ghost use Rattle.paper.specs.Limits.{coefficient_limit};
ghost use Rattle.formula.specs.Polynomial.{monomial_count};
ghost use Rattle.formula.specs.Read.{term_list, byte_count, handed_back};
ghost use Rattle.formula.specs.Answers.{handed_as};
ghost use Rattle.termbytes.specs.Terms.{term_of, answer_of};

use formula::TermList;
use paper::Refusal;
use rows::Polynomial;

// The term of monomial k with coefficient x: coefficient and exponents, four bytes each; nothing for a coefficient 0. Answers the position behind it.
fn put_term(bytes: &mut [u8], at: usize, x: i64, k: usize) -> usize
    requires { (Size coefficient_limit x) × (k < monomial_count) × (at + 8 ≤ length bytes.old) }
    ensures { (result ≡ at + length (term_of x k)) × (bytes.new ≡ sets bytes.old at (term_of x k)) }
{
    if x == 0 {
        return at;
    }
    let exponents = monomials::exponents(k);
    bytes[at..at + 4].copy_from_slice(&(x as i32).to_le_bytes());
    bytes[at + 4..at + 8].copy_from_slice(&exponents);
    at + 8
}

// The terms, one behind the other. Answers the position behind them: no heap, so the bytes are an array with a position beside it.
fn put_terms(bytes: &mut [u8], p: &Polynomial) -> usize
    requires { length bytes.old ≡ byte_count }
    ensures value { result ≡ length (term_list p.now.cells) }
    ensures bytes_after { bytes.new ≡ sets bytes.old 0 (term_list p.now.cells) }
{
    let mut at = 0;
    for (k, x) in p.cells.iter().enumerate() {
        at = put_term(bytes, at, *x, k);
    }
    at
}

// The term list of a polynomial; the polynomial 0 is refused.
#[tactic(auto, using(crate::proofs::Answer::answer_zero, crate::proofs::Answer::answer_terms), unfolding(formula::specs::Read::byte_count, formula::specs::Read::zero_bytes))]
pub fn terms_of(p: &Polynomial) -> Result<TermList, Refusal>
    ensures { handed_as result ≡ handed_back (answer_of p.now.cells) }
{
    let mut bytes = [0; 560];
    let end = put_terms(&mut bytes, p);
    if end == 0 {
        return Err(Refusal::Formula);
    }
    let count = (end / 8) as u64;
    Ok(TermList { count, bytes })
}
