// Polynomials as coefficients, one for each monomial of degree at most 4, and one operation each. Every result is an inner result: it stands on the
// limits of a term, or there is none.

#![tactic(auto)]

ghost use Rattle.std.specs.Prelude.{◌≡◌, ◌<◌, cond};
ghost use Rattle.std.proofs.Math.Option.{some};
ghost use Rattle.exact.specs.Int.{◌⊖◌};
ghost use Rattle.formula.specs.Polynomial.{zero_polynomial, cellwise, within};
ghost use Rattle.formula.specs.Polynomial.{constant, variable_polynomial, sum_of, difference_of, product_of};
ghost use Rattle.formula.specs.Meaning.{power_of, on_result, on_results};
ghost use Rattle.coefficients.specs.Result.{result_as};

use rows::Polynomial;

// The largest size of a coefficient.
const COEFFICIENT: u64 = 1048576;

// The monomials x, y, z and w.
const LETTERS: [usize; 4] = [35, 15, 5, 1];

// The polynomial of these coefficients, if they are within the limit.
fn within(cells: [i64; 70]) -> Option<Polynomial>
    ensures { result_as result ≡ within cells }
{
    if cells.iter().all(|x| x.unsigned_abs() <= COEFFICIENT) {
        Some(Polynomial { cells })
    } else {
        None
    }
}

// A number.
pub fn constant(v: u64) -> Option<Polynomial>
    requires { v < 10000000 }
    ensures { result_as result ≡ constant v }
{
    let mut cells = rows::zeros();
    cells[0] = v as i64;
    within(cells)
}

// The letter of an axis.
pub fn variable(a: usize) -> Polynomial
    requires { a < 4 }
    ensures { some result.cells ≡ variable_polynomial a }
{
    let mut cells = rows::zeros();
    cells[LETTERS[a]] = 1;
    Polynomial { cells }
}

// The sum. By index, here and below: of `from_fn` the goals show the closure's claims, a page each.
pub fn sum(p: &Polynomial, q: &Polynomial) -> Option<Polynomial>
    ensures { result_as result ≡ sum_of p.now.cells q.now.cells }
{
    let mut cells = p.cells;
    for (k, y) in q.cells.iter().enumerate() {
        cells[k] += *y;
    }
    within(cells)
}

// The opposite.
pub fn opposite(q: &Polynomial) -> Polynomial
    ensures value { some result.cells ≡ difference_of zero_polynomial q.now.cells }
    ensures cells { result.cells ≡ cellwise ◌⊖◌ zero_polynomial q.now.cells }
{
    let mut cells = q.cells;
    for (k, y) in q.cells.iter().enumerate() {
        cells[k] = -*y;
    }
    Polynomial { cells }
}

// The difference.
pub fn difference(p: &Polynomial, q: &Polynomial) -> Option<Polynomial>
    ensures { result_as result ≡ difference_of p.now.cells q.now.cells }
{
    sum(p, &opposite(q))
}

// The product, if it is within the limit of the degree.
pub fn product(p: &Polynomial, q: &Polynomial) -> Option<Polynomial>
    ensures { result_as result ≡ product_of p.now.cells q.now.cells }
{
    if !rows::fits(p, q) {
        return None;
    }
    within(rows::multiplied(p, q))
}

// The power, multiplied once at a time.
pub fn power(p: &Polynomial, k: u64) -> Option<Polynomial>
    ensures { result_as result ≡ power_of p.now.cells k }
{
    let mut r = constant(1)?;
    for _ in 0..k {
        r = product(&r, p)?;
    }
    Some(r)
}

// ---- the same of inner results: where one broke a limit, there is none

// The opposite.
#[tactic(auto, unfolding(crate::specs::Result::result_as, formula::specs::Meaning::on_result))]
pub fn negated(q: Option<Polynomial>) -> Option<Polynomial>
    ensures { result_as result ≡ on_result (difference_of zero_polynomial) (result_as q) }
{
    let q = q?;
    Some(opposite(&q))
}

// The sum, or the difference.
#[tactic(auto, unfolding(crate::specs::Result::result_as, formula::specs::Meaning::on_result, formula::specs::Meaning::on_results))]
pub fn joined(p: Option<Polynomial>, minus: bool, q: Option<Polynomial>) -> Option<Polynomial>
    ensures { result_as result ≡ on_results (cond minus difference_of sum_of) (result_as p) (result_as q) }
{
    let p = p?;
    let q = q?;
    if minus {
        difference(&p, &q)
    } else {
        sum(&p, &q)
    }
}

// The product.
#[tactic(auto, unfolding(crate::specs::Result::result_as, formula::specs::Meaning::on_result, formula::specs::Meaning::on_results))]
pub fn multiplied(p: Option<Polynomial>, q: Option<Polynomial>) -> Option<Polynomial>
    ensures { result_as result ≡ on_results product_of (result_as p) (result_as q) }
{
    let p = p?;
    let q = q?;
    product(&p, &q)
}

// The power.
#[tactic(auto, unfolding(crate::specs::Result::result_as, formula::specs::Meaning::on_result))]
pub fn raised(p: Option<Polynomial>, k: u64) -> Option<Polynomial>
    ensures { result_as result ≡ on_result (λ x. power_of x k) (result_as p) }
{
    let p = p?;
    power(&p, k)
}
