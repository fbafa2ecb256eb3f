// The values at the corners of the unit cube above a vertex, taken once for all the facets that have it as their lowest vertex.
// The values and the tests of the corners stay two lent arrays: a struct that holds both would be lent again at each vertex, and its fact would name n,
// which the job has already (as of the columns' cells).

#![tactic(auto)]

ghost use Rattle.std.specs.Prelude.{◌≡◌, ℕ, ◌+◌, ◌*◌, ◌^◌, ◌≤◌, ◌<◌, true, false, Bool, List, ℤ, length, get_or};
ghost use Rattle.bits.specs.Axes.{Axes};
ghost use Rattle.places.specs.Held.{vertex_as, facet_as, VertexSize};
ghost use Rattle.lattice.specs.Moves.{move_limit};
ghost use Rattle.determinants.specs.Cells.{Cells};
ghost use Rattle.cube.specs.Cube.{Within, ValuesCopied, CornerPut, Cube, FacetTaken, MasksUnder, NoneOnSide, OneSide, OneSided};

use job::OpenJob;
use paper::{HeldPlace, Vertex};

// The values of vertex i of some columns, copied as those of vertex j of others: one to three numbers, for each corner of each cube. The library's
// copy of a slice would be a call; a loop with a bound that is a constant is unrolled.
fn copy_values(n: usize, from: &[i64], i: usize, to: &mut [i64], j: usize)
    requires axes { (Axes n) × ((Within n from.now) × (Within n to.old)) }
    requires i_in_bounds { (3 * i + 3 ≤ length from.now) × ((3 * j + 3 ≤ length to.old) × ((length from.now ≤ 48) × (length to.old ≤ 48))) }
    ensures { ValuesCopied n from.now i to.old j to.new }
{
    let count = n - 1;
    for k in 0..3 {
        if k < count {
            to[3 * j + k] = from[3 * i + k];
        }
    }
}

// The corner v + m: whether it lies in the box with readable values, and then its values.
fn put_corner(
    job: OpenJob<'_>,
    v: Vertex,
    m: usize,
    tables: &mut [[i64; 5]; 4],
    one: &mut [i64; 15],
    values: &mut [i64; 48],
) -> bool
    requires sizes { (VertexSize move_limit v) × (Cells job.n one.old) }
    requires m_bound { (m < 16) × ((Within job.n values.old) × (length values.old ≡ 48)) }
    ensures { CornerPut job.entry.bytes.now job.entry.n (vertex_as job.entry.n v) m values.old result values.new one.new }
{
    let u = lattice::shifted(v, m as u64);
    if field::vertex_inside(job, u) && field::put_values_with(job, u, 0, tables, one) {
        copy_values(job.n, one, 0, values, m);
        true
    } else {
        false
    }
}

// All corners of the cube above v. The room for the tables of powers is cleared once, and not at each corner.
pub fn fill(
    job: OpenJob<'_>,
    v: Vertex,
    one: &mut [i64; 15],
    values: &mut [i64; 48],
    known: &mut [bool; 16],
)
    requires sizes { (VertexSize move_limit v) × (Cells job.n one.old) }
    requires within { (Within job.n values.old) × ((length values.old ≡ 48) × (length known.old ≡ 16)) }
    ensures { Cube job.entry.bytes.now job.entry.n (vertex_as job.entry.n v) values.new known.new one.new }
{
    let mut tables = [[0i64; 5]; 4];
    for m in 0..1usize << job.n {
        known[m] = put_corner(job, v, m, &mut tables, one, values);
    }
}

// The columns of a facet with the cube's vertex as its lowest, if all its vertices lie in the box with readable values.
pub fn take_facet(
    n: usize,
    p: HeldPlace,
    values: &[i64; 48],
    known: &[bool; 16],
    cells: &mut [i64; 15],
) -> bool
    requires masks_under { (MasksUnder n p) × (Cells n cells.old) }
    requires within { (Within n values.now) × ((length values.now ≡ 48) × (length known.now ≡ 16)) }
    ensures { (s : List ℕ) (one : List ℤ) → Cube s n (vertex_as n p.low) values.now known.now one → FacetTaken s n (facet_as n p) result cells.new }
{
    let masks = columns::facet_masks(p);
    for k in 0..n {
        let m = masks[k] as usize;
        if !known[m] {
            return false;
        }
        copy_values(n, values, m, cells, k);
    }
    true
}

// Room for the values of a cube, and for its tests.
pub fn no_values() -> [i64; 48]
    ensures { ((n : ℕ) → Within n result) × (length result ≡ 48) }
{
    [0; 48]
}

// No corner is known yet.
pub fn none_known() -> [bool; 16]
    ensures { length result ≡ 16 }
{
    [false; 16]
}

// Value k is above 0 at some of the corners that are known, or, where `above` is false, not above 0 at some: one test of either side.
fn some_on_side(n: usize, k: usize, above: bool, values: &[i64; 48], known: &[bool; 16]) -> bool
    requires axes { (Axes n) × ((Within n values.now) × ((length values.now ≡ 48) × (length known.now ≡ 16))) }
    requires k_bound { k < 3 }
    ensures { result ≡ false → NoneOnSide n k above values.now known.now }
{
    for m in 0..1usize << n {
        if known[m] && (0 < values[3 * m + k]) == above {
            return true;
        }
    }
    false
}

// Value k is above 0 at some of the corners that are known, and not above 0 at others.
fn two_sided(n: usize, k: usize, values: &[i64; 48], known: &[bool; 16]) -> bool
    requires axes { (Axes n) × ((Within n values.now) × ((length values.now ≡ 48) × (length known.now ≡ 16))) }
    requires k_bound { k < 3 }
    ensures { result ≡ false → OneSide n k values.now known.now }
{
    some_on_side(n, k, true, values, known) && some_on_side(n, k, false, values, known)
}

// A polynomial has one side only at the corners that are known: then no facet of the cube is crossed, and none need be judged.
pub fn one_sided(n: usize, values: &[i64; 48], known: &[bool; 16]) -> bool
    requires { (Axes n) × ((Within n values.now) × ((length values.now ≡ 48) × (length known.now ≡ 16))) }
    ensures { result ≡ true → OneSided n values.now known.now }
{
    (0..n - 1).any(|k| !two_sided(n, k, values, known))
}
