// The columns of the vertices that a base and masks name: all vertices are tested against the box before any value is read.
ghost use Rattle.std.specs.Prelude.{◌≡◌, true, ◌≤◌, length};
ghost use Rattle.curves.specs.Grid.{plus};
ghost use Rattle.curves.specs.Step.{every};
ghost use Rattle.paper.specs.Values.{field_of};
ghost use Rattle.places.specs.Held.{vertex_as, VertexSize};
ghost use Rattle.determinants.specs.Cells.{Cells};
ghost use Rattle.lattice.specs.Moves.{move_limit};
ghost use Rattle.columns.specs.Vertices.{vertex_list};
ghost use Rattle.columns.specs.Found.{ColumnsPut, ColumnsFound};

use job::OpenJob;
use paper::{Stop, Vertex};

// The vertex with a mask lies in the box.
fn inside_at(job: OpenJob<'_>, base: Vertex, mask: u64) -> bool
    requires { VertexSize move_limit base }
    ensures { result ≡ (field_of job.entry.bytes.now).in_box (plus (vertex_as job.entry.n base) mask) }
{
    field::vertex_inside(job, lattice::shifted(base, mask))
}

// The vertices lie in the box.
fn all_inside(job: OpenJob<'_>, base: Vertex, masks: &[u64]) -> bool
    requires { VertexSize move_limit base }
    ensures { result ≡ every (field_of job.entry.bytes.now).in_box (vertex_list job.entry.n base masks.now) }
{
    masks.iter().all(|m| inside_at(job, base, *m))
}

// The columns of the vertices, which lie in the box, put in if the sums of all are readable.
fn put_columns(job: OpenJob<'_>, base: Vertex, masks: &[u64], cells: &mut [i64; 15]) -> bool
    requires sizes { (VertexSize move_limit base) × (Cells job.n cells.old) }
    requires in_box { (length masks.now ≤ 5) × (every (field_of job.bytes.now).in_box (vertex_list job.n base masks.now) ≡ true) }
    ensures { ColumnsPut job.entry.bytes.now job.entry.n (vertex_list job.entry.n base masks.now) cells.old result cells.new }
{
    for (k, m) in masks.iter().enumerate() {
        if !field::put_values(job, lattice::shifted(base, *m), k, cells) {
            return false;
        }
    }
    true
}

// The columns of the vertices: an edge if one lies outside the box, a limit if a value is not readable.
pub fn values_at(
    job: OpenJob<'_>,
    base: Vertex,
    masks: &[u64],
    cells: &mut [i64; 15],
) -> Result<(), Stop>
    requires sizes { (VertexSize move_limit base) × (Cells job.n cells.old) }
    requires count { length masks.now ≤ 5 }
    ensures { ColumnsFound job.entry.bytes.now job.entry.n (vertex_list job.entry.n base masks.now) cells.old result cells.new }
{
    if !all_inside(job, base, masks) {
        Err(Stop::Edge)
    } else if !put_columns(job, base, masks, cells) {
        Err(Stop::Limit)
    } else {
        Ok(())
    }
}
