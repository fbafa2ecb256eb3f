// A step by what is carried: the values at the facet's vertices are known, and only the new vertex of the simplex is summed. Nothing is
// written here, so that a walk without a buffer takes the same step.

#![tactic(auto)]

ghost use Rattle.std.specs.Prelude.{◌≡◌, true, ℕ, ◌≤◌};
ghost use Rattle.exact.specs.Crossed.{crossed};
ghost use Rattle.curves.specs.Grid.{place_ok};
ghost use Rattle.paper.specs.Limits.{dimension_ok};
ghost use Rattle.places.specs.Held.{vertex_as, place_as, VertexSize};
ghost use Rattle.lattice.specs.Moves.{move_limit};
ghost use Rattle.determinants.specs.Cells.{Cells, facet_columns};
ghost use Rattle.table.specs.Table.{InTable, MasksAre};
ghost use Rattle.carried.specs.Carries.{new_vertex_at, Enters, Beyond, Carries, AheadIs};

use job::OpenJob;
use paper::{HeldPlace, Stop, Vertex};
use simplices::{corners, search};

// A place with the simplex on its side: the row of its order, the vertex that the facet leaves out, and whether the determinant of the
// facet is above 0.
#[derive(Clone, Copy)]
pub struct Entered {
    pub place: HeldPlace,
    pub row: usize,
    pub out: usize,
    pub plus: bool,
}

// The simplex on the side of a crossed place. The cells hold the facet's columns; they go where the simplex has its vertices.
pub fn enter(n: usize, p: HeldPlace, cells: &mut [i64; 15]) -> Entered
    requires n_value { (dimension_ok n ≡ true) × (place_ok n (place_as n p) ≡ true) }
    requires cells { (Cells n cells.old) × (crossed n (facet_columns n cells.old n) ≡ true) }
    ensures { Enters n p cells.old cells.new result }
{
    let found = search::find(n, p);
    let plus = determinants::determinant(n, cells, n) > 0;
    moves::make_room(n, cells, found.out);
    Entered {
        place: p,
        row: found.row,
        out: found.out,
        plus,
    }
}

// The vertex that the simplex of a row with these masks has and its facet does not.
fn new_vertex(corner: Vertex, masks: u16, out: usize) -> Vertex
    requires { (out ≤ 4) × (VertexSize move_limit corner) }
    ensures { (n row : ℕ) → InTable n row → MasksAre n row masks → out ≤ n → vertex_as n result ≡ new_vertex_at n corner row out }
{
    lattice::shifted(corner, table::digit(masks, out))
}

impl Entered {
    // The place on the other side of the facet without vertex e of the simplex here, with the simplex there.
    fn beyond(self, n: usize, corner: Vertex, masks: u16, e: usize) -> Entered
        requires in_table { (InTable n self.row) × (MasksAre n self.row masks) }
        requires out_le_n { (self.out ≤ n) × ((e ≤ n) × (VertexSize move_limit corner)) }
        ensures { Beyond n corner self e result }
    {
        let odd = (self.out + e) % 2 == 1;
        Entered {
            place: corners::next(n, corner, masks, e),
            row: neighbour::neighbour(n, self.row, e),
            out: moves::new_index(n, e),
            plus: self.plus == odd,
        }
    }
}

// Edge if the new vertex lies outside the box, limit if it is in the box and not readable, else the place of the other crossed facet, its
// side leading onward, and what is carried there.
pub fn onward(job: OpenJob<'_>, here: Entered, cells: &mut [i64; 15]) -> Result<Entered, Stop>
    requires { Carries job.bytes.now job.n here cells.old }
    ensures { AheadIs job.entry.bytes.now job.entry.n (place_as job.entry.n here.place) result cells.new }
{
    let n = job.n;
    let masks = table::vertex_masks(n, here.row);
    let corner = corners::corner_of(here.place, masks, here.out);
    let v = new_vertex(corner, masks, here.out);
    if !field::vertex_inside(job, v) {
        return Err(Stop::Edge);
    }
    if !field::put_values(job, v, here.out, cells) {
        return Err(Stop::Limit);
    }
    let exit = compared::exit(n, cells, here.plus, here.out);
    moves::move_columns(n, cells, exit);
    Ok(here.beyond(n, corner, masks, exit))
}
