// One vertex of a job that has opened: in the box or not, and its values put into the cells.

#![tactic(auto)]

ghost use Rattle.std.specs.Prelude.{◌≡◌, true, ◌<◌};
ghost use Rattle.paper.specs.Values.{field_of};
ghost use Rattle.places.specs.Held.{vertex_as};
ghost use Rattle.polynomial.specs.Sums.{Tables, tabled};
ghost use Rattle.determinants.specs.Cells.{Cells};
ghost use Rattle.field.specs.Put.{ValuePut, ValuesPut};

use job::OpenJob;
use paper::Vertex;

// The vertex lies in the job's box.
pub fn vertex_inside(job: OpenJob<'_>, v: Vertex) -> bool
    ensures { result ≡ (field_of job.entry.bytes.now).in_box (vertex_as job.entry.n v) }
{
    lattice::inside(job.body(0), job.n, v)
}

// The value of polynomial k at the vertex of the tables of powers, put into one cell if its sum is readable. Inlined: its body stands in two places, in a
// scan of a box and in `put_values`, and as a call it would be one for each value.
#[inline(always)]
fn put_value(
    job: OpenJob<'_>,
    k: usize,
    at: usize,
    tables: &[[i64; 5]; 4],
    cells: &mut [i64; 15],
) -> bool
    requires tables { Tables job.n tables.now }
    requires k_nonzero { (0 < k) × ((k < job.n) × (at < 15)) }
    ensures { ValuePut job.entry.bytes.now job.entry.n (tabled job.entry.n tables.now) k at cells.old result cells.new }
{
    let sum = polynomial::sum_at(job.body(k), job.n, tables);
    let known = value::readable(job.n, sum);
    if known {
        cells[at] = value::value_of(job.bias(), sum);
    }
    known
}

// The values of a vertex in the box, put in as those of vertex i if its sums are readable. The tables of powers are made once, since each polynomial
// takes its powers from them, in room that is lent: room of its own would be cleared first, at each vertex of a box. Inlined: a scan of a box spends its
// time here, and whatever else asks for values has it once, in `put_values`.
#[inline(always)]
pub fn put_values_with(
    job: OpenJob<'_>,
    v: Vertex,
    i: usize,
    tables: &mut [[i64; 5]; 4],
    cells: &mut [i64; 15],
) -> bool
    requires inside { (field_of job.bytes.now).in_box (vertex_as job.n v) ≡ true }
    requires i_bound { (i < 5) × (Cells job.n cells.old) }
    ensures { ValuesPut job.entry.bytes.now job.entry.n (vertex_as job.entry.n v) i cells.old result cells.new }
{
    polynomial::put_powers(job.n, v, tables);
    for j in 0..job.n - 1 {
        if !put_value(job, j + 1, 3 * i + j, tables, cells) {
            return false;
        }
    }
    true
}

// The same with room of its own for the tables.
pub fn put_values(job: OpenJob<'_>, v: Vertex, i: usize, cells: &mut [i64; 15]) -> bool
    requires inside { (field_of job.bytes.now).in_box (vertex_as job.n v) ≡ true }
    requires i_bound { (i < 5) × (Cells job.n cells.old) }
    ensures { ValuesPut job.entry.bytes.now job.entry.n (vertex_as job.entry.n v) i cells.old result cells.new }
{
    let mut tables = [[0i64; 5]; 4];
    put_values_with(job, v, i, &mut tables, cells)
}
