// Polynomials within the limits of a term, the product of two of them, a row of terms for each term of the first, and the test of its degree.

#![tactic(auto)]

ghost use Rattle.std.specs.Prelude.{◌≡◌, ◌*◌, ◌<◌};
ghost use Rattle.exact.specs.Size.{Size};
ghost use Rattle.paper.specs.Limits.{coefficient_limit};
ghost use Rattle.formula.specs.Polynomial.{Kept, monomial_count, zero_polynomial, multiplied, fits};
ghost use Rattle.rows.specs.Degree.{degree_of};
ghost use Rattle.rows.specs.Bounded.{Bounded, RowAdded, term_bound, term_added};

// A coefficient for each monomial of degree at most 4, all within the limit of a term: what every inner result keeps.
#[derive(Clone, Copy)]
pub struct Polynomial {
    pub cells: [i64; 70],
    pub ghost kept: { Kept cells },
}

// The polynomial 0.
#[tactic(auto, unfolding(formula::specs::Polynomial::zero_polynomial, formula::specs::Polynomial::zeros, formula::specs::Polynomial::monomial_count))]
pub fn zeros() -> [i64; 70]
    ensures { result ≡ zero_polynomial }
{
    [0; 70]
}

// r with c · x · (monomial i · monomial k) added; a product of degree above 4 has no coefficient.
fn add_term(r: &mut [i64; 70], c: i64, i: usize, x: i64, k: usize)
    requires i_lt_monomial_count { (i < monomial_count) × (k < monomial_count) }
    requires bounded { (Bounded (4899 * term_bound) r.old) × ((Size coefficient_limit c) × (Size coefficient_limit x)) }
    ensures { r.new ≡ term_added c i x k r.old }
{
    if x == 0 {
        return;
    }
    if let Some(s) = monomials::product_slot(i, k) {
        r[s] += c * x;
    }
}

// r with c · monomial i · q added.
fn add_row(r: &mut [i64; 70], c: i64, i: usize, q: &Polynomial)
    requires i_lt_monomial_count { (i < monomial_count) × (Size coefficient_limit c) }
    requires bounded { Bounded (70 * i * term_bound) r.old }
    ensures { RowAdded c i q.now.cells r.old r.new }
{
    if c == 0 {
        return;
    }
    for (k, x) in q.cells.iter().enumerate() {
        add_term(r, c, i, *x, k);
    }
}

// The product, without the test of its limits.
#[tactic(auto, using(crate::proofs::RowsAdded::rows_end))]
pub fn multiplied(p: &Polynomial, q: &Polynomial) -> [i64; 70]
    ensures { (result ≡ multiplied p.now.cells q.now.cells) × (Bounded (4900 * term_bound) result) }
{
    let mut r = zeros();
    for (i, c) in p.cells.iter().enumerate() {
        add_row(&mut r, *c, i, q);
    }
    r
}

// The degree of the polynomial; 0 of the polynomial 0.
#[tactic(auto, unfolding(crate::specs::Degree::degree_to))]
fn degree(p: &Polynomial) -> u64
    ensures { result ≡ degree_of p.now.cells }
{
    let mut largest: u64 = 0;
    for (k, x) in p.cells.iter().enumerate() {
        if *x != 0 {
            largest = largest.max(monomials::degree(k));
        }
    }
    largest
}

// The product is within the limit of the degree.
#[tactic(auto, using(crate::proofs::DegreeFits::degree_small))]
pub fn fits(p: &Polynomial, q: &Polynomial) -> bool
    ensures { result ≡ fits p.now.cells q.now.cells }
{
    degree(p) + degree(q) <= 4
}
