// The exit of a simplex by comparisons of two vertices: n − 1 signs in place of a facet judged for each vertex.

#![tactic(auto)]

ghost use Rattle.std.specs.Prelude.{◌≡◌, cond, [], ◌∷◌, ◌-◌, ◌≤◌, ◌<◌};
ghost use Rattle.exact.specs.Int.{0ℤ};
ghost use Rattle.exact.specs.Size.{Is};
ghost use Rattle.exact.specs.Crossed.{coefficient, remove};
ghost use Rattle.exact.specs.Compared.{above, pair_sign, stays, compared_exit};
ghost use Rattle.determinants.specs.Cells.{Cells, simplex_columns, facet_columns};
ghost use Rattle.determinants.specs.Entries.{coefficient_limit};

use bits::index::skip;
use determinants::{alternated, minor};
use facets::sign_of;
use std::cmp::Ordering;

// The coefficient of power j at a vertex that stands before those of the facet without q, of which vertex i is left out.
fn pair_coefficient(n: usize, cells: &[i64; 15], q: usize, i: usize, j: usize) -> i64
    requires cells { Cells n cells.now }
    requires q_le_n { (q ≤ n) × ((i < n) × (j < n)) }
    ensures { Is coefficient_limit (coefficient n ([] ∷ remove i (facet_columns n cells.now q)) 0 j) result }
{
    alternated(j, minor(n, cells, q, i, j))
}

// The sign of a pair is above nought, where the coefficient of power 0 is 0: rare, so it stands apart.
fn tied_above(n: usize, cells: &[i64; 15], q: usize, r: usize) -> bool
    requires cells { (Cells n cells.now) × ((q < r) × (r ≤ n)) }
    requires q_value { coefficient n ([] ∷ remove (r - 1) (facet_columns n cells.now q)) 0 0 ≡ 0ℤ }
    ensures { result ≡ above (pair_sign n (simplex_columns n cells.now) q r) }
{
    for j in 1..n {
        match sign_of(pair_coefficient(n, cells, q, r - 1, j)) {
            Ordering::Greater => return true,
            Ordering::Less => return false,
            Ordering::Equal => {}
        }
    }
    false
}

// The sign of a pair of vertices, q before r, is above nought. Two tests of a number and no `Ordering`: along a curve branches are foreseen,
// and a selection took longer.
fn pair_above(n: usize, cells: &[i64; 15], q: usize, r: usize) -> bool
    requires { (Cells n cells.now) × ((q < r) × (r ≤ n)) }
    ensures { result ≡ above (pair_sign n (simplex_columns n cells.now) q r) }
{
    let first = minor(n, cells, q, r - 1, 0);
    if first > 0 {
        true
    } else if first < 0 {
        false
    } else {
        tied_above(n, cells, q, r)
    }
}

// Of two vertices other than `out` the one that may be the exit.
fn kept(n: usize, cells: &[i64; 15], plus: bool, out: usize, q: usize, r: usize) -> usize
    requires { (Cells n cells.now) × ((q < r) × ((r ≤ n) × (out ≤ n))) }
    ensures { result ≡ cond (stays n (simplex_columns n cells.now) plus out q r) q r }
{
    if (pair_above(n, cells, q, r) == plus) == ((q + r + out) % 2 == 0) {
        q
    } else {
        r
    }
}

// The exit by comparisons, of the simplex whose facet without vertex `out` has a determinant above 0 or not.
pub fn exit(n: usize, cells: &[i64; 15], plus: bool, out: usize) -> usize
    requires { (Cells n cells.now) × (out ≤ n) }
    ensures { result ≡ compared_exit n (simplex_columns n cells.now) plus out }
{
    let mut q = skip(out, 0);
    for k in 1..n {
        q = kept(n, cells, plus, out, q, skip(out, k));
    }
    q
}
