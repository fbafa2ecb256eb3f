// The corner of the simplex of a facet, and the place on the other side of a facet.

ghost use Rattle.std.specs.Prelude.{ℕ, ◌≤◌};
ghost use Rattle.curves.specs.Grid.{place_at, turn};
ghost use Rattle.places.specs.Held.{vertex_as, VertexSize};
ghost use Rattle.table.specs.Table.{InTable, MasksAre, order_at};
ghost use Rattle.lattice.specs.Moves.{move_limit};
ghost use Rattle.sides.specs.Corners.{CornerIs, PlaceIs};

use paper::{HeldPlace, Vertex};
use sides::place;

// The corner of the simplex with the order of the row that has these masks, whose facet without vertex `out` is that of the place. The facet's
// lowest vertex is vertex 0, the corner, or vertex 1 if that is left out.
pub fn corner_of(p: HeldPlace, masks: u16, out: usize) -> Vertex
    requires { VertexSize move_limit p.low }
    ensures { (n row : ℕ) → MasksAre n row masks → CornerIs p.low (order_at n row) out result }
{
    if out == 0 {
        lattice::lowered(p.low, table::digit(masks, 1))
    } else {
        p.low
    }
}

// The place on the other side of the facet without vertex `out`.
pub fn next(n: usize, corner: Vertex, masks: u16, out: usize) -> HeldPlace
    requires { (n ≤ 4) × ((out ≤ n) × (VertexSize move_limit corner)) }
    ensures { (row : ℕ) → InTable n row → MasksAre n row masks → PlaceIs n corner row out (turn (place_at (vertex_as n corner) (order_at n row) out)) result }
{
    let mut p = place::place_at(n, corner, masks, out);
    // Turned where it lies: a struct update copies the place.
    p.side = 1 - p.side;
    p
}
