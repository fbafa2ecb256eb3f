// The place of a simplex without one vertex, with any corner, from the masks of its row.

ghost use Rattle.std.specs.Prelude.{◌≡◌, ℕ, ◌≤◌, ◌<◌};
ghost use Rattle.curves.specs.Grid.{place_at};
ghost use Rattle.places.specs.Held.{vertex_as, VertexSize};
ghost use Rattle.table.specs.Table.{InTable, MasksAre, order_at};
ghost use Rattle.sides.specs.Facets.{side_at};
ghost use Rattle.lattice.specs.Moves.{move_limit};
ghost use Rattle.sides.specs.Corners.{PlaceIs};

use crate::facet::masks_from;
use bits::index::skip;
use paper::{HeldPlace, Vertex};

// The side of the facet without vertex `out`, from the masks of a row's vertices. Flat: the vertex left out is the lowest (1) or the
// highest (0). Bent: the lower of the axes before and behind it comes first (0) or last (1). Masks of one axis compare as the axes do,
// and the sums say at - below < above - at.
fn side_from(n: usize, masks: u16, out: usize) -> u64
    requires { (out ≤ n) × (n ≤ 4) }
    ensures { (result < 2) × ((row : ℕ) → InTable n row → MasksAre n row masks → result ≡ side_at n row out) }
{
    if out == 0 {
        1
    } else if out == n {
        0
    } else {
        let below = table::digit(masks, out - 1);
        let at = table::digit(masks, out);
        let above = table::digit(masks, out + 1);
        u64::from(below + above <= at + at)
    }
}

// The place whose side is the simplex with a corner and the order of the row that has these masks, and whose facet leaves out vertex `out`.
pub fn place_at(n: usize, corner: Vertex, masks: u16, out: usize) -> HeldPlace
    requires { (n ≤ 4) × ((out ≤ n) × (VertexSize move_limit corner)) }
    ensures { (result.side < 2) × ((row : ℕ) → InTable n row → MasksAre n row masks → PlaceIs n corner row out (place_at (vertex_as n corner) (order_at n row) out) result) }
{
    let base = table::digit(masks, skip(out, 0));
    HeldPlace {
        low: lattice::shifted(corner, base),
        masks: masks_from(masks, base, out),
        side: side_from(n, masks, out),
    }
}
