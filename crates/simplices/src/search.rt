// The simplex on a place's side: the table of orders is searched for the row and the vertex left out whose facet has the place's
// masks and side.

ghost use Rattle.std.specs.Prelude.{◌≡◌, true, ◌≤◌, ◌<◌};
ghost use Rattle.curves.specs.Grid.{same_masks, place_ok};
ghost use Rattle.paper.specs.Limits.{dimension_ok};
ghost use Rattle.places.specs.Held.{masks_as, place_as};
ghost use Rattle.table.specs.Table.{InTable};
ghost use Rattle.sides.specs.Facets.{masks_at};
ghost use Rattle.simplices.specs.Search.{matches, FoundOut, Found};

use paper::HeldPlace;
use sides::facet;

// A row of the table, and the index of the vertex left out.
#[derive(Clone, Copy, Debug, PartialEq, Eq)]
pub struct Incident {
    pub row: usize,
    pub out: usize,
}

// The facet without vertex `out` has the place's masks.
pub fn same_masks(n: usize, row: usize, out: usize, p: HeldPlace) -> bool
    requires { (InTable n row) × (out ≤ n) }
    ensures { result ≡ same_masks (masks_at n row out) (masks_as n p) }
{
    let count = n - 1;
    let masks = facet::facet_masks(n, row, out);
    // One mask after the other: the first decides nearly every try, and with a bound that is a constant the others are not even computed then.
    (0..3).all(|k| count <= k || masks[k] == p.masks[k])
}

// The facet without vertex `out` has the place's masks and side.
pub fn matches(n: usize, row: usize, out: usize, p: HeldPlace) -> bool
    requires { (InTable n row) × (out ≤ n) }
    ensures { result ≡ matches n row out (place_as n p) }
{
    same_masks(n, row, out, p) && facet::side(n, row, out) == p.side
}

// The first vertex whose facet matches, if there is one in this row.
pub fn find_out(n: usize, row: usize, p: HeldPlace) -> Option<usize>
    requires { InTable n row }
    ensures { FoundOut n row (place_as n p) result }
{
    (0..=n).find(|out| matches(n, row, *out, p))
}

// The simplex on the side of a well-formed place.
pub fn find(n: usize, p: HeldPlace) -> Incident
    requires { (dimension_ok n ≡ true) × (place_ok n (place_as n p) ≡ true) }
    ensures { Found n (place_as n p) result.row result.out }
{
    for row in 0..table::rows(n) {
        if let Some(out) = find_out(n, row, p) {
            return Incident { row, out };
        }
    }
    unreachable!()
}
