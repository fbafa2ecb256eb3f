// The determinant of a facet's columns and the coefficients at a vertex, read from the cells of a simplex.

#![tactic(auto)]

ghost use Rattle.std.specs.Prelude.{◌≡◌, map, ◌≤◌, ◌<◌};
ghost use Rattle.exact.specs.Int.{◌⊗◌};
ghost use Rattle.exact.specs.Size.{Size, Is};
ghost use Rattle.exact.specs.Det.{det, rows_from, determinant};
ghost use Rattle.exact.specs.Crossed.{remove, coefficient};
ghost use Rattle.exact.specs.Minors.{alternate};
ghost use Rattle.determinants.specs.Cells.{Cells, entry_limit, facet_columns};
ghost use Rattle.determinants.specs.Entries.{entry_at, CellsWithin, Held, product_limit, coefficient_limit, determinant_limit};

use bits::index::skip;

// The entry of a row in the column of vertex v: 1 in row 0, then the values.
fn entry(cells: &[i64; 15], row: usize, v: usize) -> i64
    requires cells_within { CellsWithin (entry_limit 3) cells.now }
    requires row_bound { (row < 4) × (v < 5) }
    ensures { result ≡ entry_at cells.now row v }
{
    if row == 0 {
        1
    } else {
        cells[3 * v + (row - 1)]
    }
}

// The determinant of two rows in the columns of two vertices. It, `product` and `three_rows` are inlined, so that no array of indices is
// stored: in dimension 4 a comparison takes twice as long where one is.
#[inline(always)]
fn two_rows(cells: &[i64; 15], rows: [usize; 2], vertices: [usize; 2]) -> i64
    requires cells_within { CellsWithin (entry_limit 3) cells.now }
    requires held { Held rows vertices }
    ensures { result ≡ det (map (entry_at cells.now) rows) vertices }
{
    let [r, s] = rows;
    let [a, b] = vertices;
    entry(cells, r, a) * entry(cells, s, b) - entry(cells, r, b) * entry(cells, s, a)
}

// The entry of a row at vertex v, times the determinant of two rows in the columns of two vertices.
#[inline(always)]
fn product(cells: &[i64; 15], row: usize, v: usize, rows: [usize; 2], vertices: [usize; 2]) -> i64
    requires cells_within { CellsWithin (entry_limit 4) cells.now }
    requires row_bound { (row < 4) × (v < 5) }
    requires held { Held rows vertices }
    ensures { Is product_limit (entry_at cells.now row v ⊗ det (map (entry_at cells.now) rows) vertices) result }
{
    entry(cells, row, v) * two_rows(cells, rows, vertices)
}

// The determinant of three rows in the columns of three vertices, expanded along the first row.
#[inline(always)]
fn three_rows(cells: &[i64; 15], rows: [usize; 3], vertices: [usize; 3]) -> i64
    requires cells_within { CellsWithin (entry_limit 4) cells.now }
    requires held { Held rows vertices }
    ensures { result ≡ det (map (entry_at cells.now) rows) vertices }
{
    let [r, s, t] = rows;
    let [a, b, c] = vertices;
    product(cells, r, a, [s, t], [b, c]) - product(cells, r, b, [s, t], [a, c])
        + product(cells, r, c, [s, t], [a, b])
}

// The determinant of the facet without vertex `out`, without its column i and row j. Inlined, since a trace compares vertices by that of
// row 0: with rows that are constants no index of a row is computed. It returns early, so that what a lower dimension does not have is not
// computed.
#[inline(always)]
pub fn minor(n: usize, cells: &[i64; 15], out: usize, i: usize, j: usize) -> i64
    requires cells { Cells n cells.now }
    requires out_le_n { (out ≤ n) × ((i < n) × (j < n)) }
    ensures { Is coefficient_limit (det (remove j (rows_from 0 n)) (remove i (facet_columns n cells.now out))) result }
{
    let r = skip(j, 0);
    let a = skip(out, skip(i, 0));
    if n == 2 {
        return entry(cells, r, a);
    }
    let s = skip(j, 1);
    let b = skip(out, skip(i, 1));
    if n == 3 {
        return two_rows(cells, [r, s], [a, b]);
    }
    let t = skip(j, 2);
    let c = skip(out, skip(i, 2));
    three_rows(cells, [r, s, t], [a, b, c])
}

// A minor as a cofactor: turned round where the power of −1 is odd.
pub fn alternated(power: usize, minor: i64) -> i64
    requires { Size coefficient_limit minor }
    ensures { Is coefficient_limit (alternate power minor) result }
{
    if power % 2 == 0 { minor } else { -minor }
}

// The coefficient of power j at vertex i of the facet without vertex `out`: the cofactor. Inlined: D takes it at power 0 alone, and a facet is
// judged half as fast where it is a call.
#[inline(always)]
pub fn coefficient(n: usize, cells: &[i64; 15], out: usize, i: usize, j: usize) -> i64
    requires cells { Cells n cells.now }
    requires out_le_n { (out ≤ n) × ((i < n) × (j < n)) }
    ensures { Is coefficient_limit (coefficient n (facet_columns n cells.now out) i j) result }
{
    alternated(i + j, minor(n, cells, out, i, j))
}

// The determinant D of the facet without vertex `out`: the sum of the coefficients of power 0. A loop, since the bound of a signed `sum`
// cannot be shown.
pub fn determinant(n: usize, cells: &[i64; 15], out: usize) -> i64
    requires cells { Cells n cells.now }
    requires out_le_n { out ≤ n }
    ensures { Is determinant_limit (determinant n (facet_columns n cells.now out)) result }
{
    let mut sum = 0;
    for i in 0..n {
        sum += coefficient(n, cells, out, i, 0);
    }
    sum
}
