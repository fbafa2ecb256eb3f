// What lies ahead of a place of a job that has opened: the simplex on its side, and the way out of it.
// Step sums all vertices and judges each facet; a trace goes by `carried`, which keeps what is known. The tests compare the two.

ghost use Rattle.curves.specs.Grid.{vertices};
ghost use Rattle.places.specs.Held.{vertex_as, place_as, VertexSize};
ghost use Rattle.lattice.specs.Moves.{move_limit};
ghost use Rattle.determinants.specs.Cells.{Cells};
ghost use Rattle.columns.specs.Found.{SimplexFound};
ghost use Rattle.table.specs.Table.{InTable, order_at};
ghost use Rattle.step.specs.Held.{Held};
ghost use Rattle.step.specs.Ahead.{AheadIs};

use job::OpenJob;
use paper::{HeldPlace, Stop, Vertex};
use simplices::{corners, exits, search};

// The columns of the simplex with a corner and a row's order.
fn simplex_of(
    job: OpenJob<'_>,
    row: usize,
    corner: Vertex,
    cells: &mut [i64; 15],
) -> Result<(), Stop>
    requires { (InTable job.n row) × ((VertexSize move_limit corner) × (Cells job.n cells.old)) }
    ensures { SimplexFound job.entry.bytes.now job.entry.n (vertices (vertex_as job.entry.n corner) (order_at job.entry.n row)) result cells.new }
{
    let masks = [
        table::vertex_mask(job.n, row, 1),
        table::vertex_mask(job.n, row, 2),
        table::vertex_mask(job.n, row, 3),
        table::vertex_mask(job.n, row, 4),
    ];
    columns::simplex_values(job, corner, masks, cells)
}

// Edge if any vertex of the simplex on the place's side lies outside the box, limit if it is in the box and not readable,
// else the place of its other crossed facet, its side leading onward.
pub fn onward(job: OpenJob<'_>, p: HeldPlace) -> Result<HeldPlace, Stop>
    requires { Held job.bytes.now job.n p }
    ensures { AheadIs job.entry.bytes.now job.entry.n (place_as job.entry.n p) result }
{
    let n = job.n;
    let here = search::find(n, p);
    let masks = table::vertex_masks(n, here.row);
    let corner = corners::corner_of(p, masks, here.out);
    let mut cells = [0i64; 15];
    simplex_of(job, here.row, corner, &mut cells)?;
    let exit = exits::exit(n, &cells, here.out);
    Ok(corners::next(n, corner, masks, exit))
}
