// Crossed or not: the published test with the tie rule, by whole numbers.

#![tactic(auto)]

ghost use Rattle.std.specs.Prelude.{◌≡◌, ◌≤◌};
ghost use Rattle.exact.specs.Sign.{sign};
ghost use Rattle.exact.specs.Crossed.{crossed};
ghost use Rattle.determinants.specs.Cells.{Cells, facet_columns};
ghost use Rattle.facets.specs.Signs.{sign_as};

use determinants::{coefficient, determinant};
use std::cmp::Ordering;

// The sign of a number, as it compares with 0.
pub fn sign_of(x: i64) -> Ordering
    ensures { sign_as result ≡ sign x }
{
    x.cmp(&0)
}

// Crossed, for the facet of a simplex without vertex `out`: D is not 0 and, for every vertex, the first non-zero coefficient in rising powers
// has the sign of D. A nested walk that a label leaves at the first vertex against D, the form that document 01 names, and no chain of
// iterators.
pub fn crossed(n: usize, cells: &[i64; 15], out: usize) -> bool
    requires cells { Cells n cells.now }
    requires out_le_n { out ≤ n }
    ensures { result ≡ crossed n (facet_columns n cells.now out) }
{
    let side = sign_of(determinant(n, cells, out));
    if side == Ordering::Equal {
        return false;
    }
    let mut with = 0;
    'vertices: for i in 0..n {
        for j in 0..n {
            let found = sign_of(coefficient(n, cells, out, i, j));
            if found == side {
                with += 1;
                continue 'vertices;
            }
            if found != Ordering::Equal {
                break 'vertices;
            }
        }
        break;
    }
    with == n
}
