// The facets of the simplex with a row's order: masks and side. They do not depend on the simplex's corner.

ghost use Rattle.std.specs.Prelude.{◌≡◌, ℕ, ◌-◌, ◌≤◌, ◌<◌};
ghost use Rattle.exact.specs.Minors.{skip};
ghost use Rattle.table.specs.Table.{InTable, MasksAre, axis_at, order_at, digit_at, vertex_mask};
ghost use Rattle.sides.specs.Facets.{facet_masks, side_at};

use bits::index::skip;
use bits::masks;

// The axis that leads from vertex k to the next: the only one of the difference.
fn added_axis(n: usize, row: usize, k: usize) -> usize
    requires { (InTable n row) × (k < n) }
    ensures { result ≡ axis_at n row k }
{
    masks::axis_of(table::vertex_mask(n, row, k + 1) - table::vertex_mask(n, row, k))
}

// Mask i of the facet without vertex `out`, from the masks of a row's vertices and that of the facet's lowest vertex. Behind the last
// vertex the digit is 0, and so is the difference then.
fn mask_from(masks: u16, base: u64, out: usize, i: usize) -> u64
    requires { i < 4 }
    ensures { result ≡ digit_at masks (skip out i) - base }
{
    table::digit(masks, skip(out, i)).saturating_sub(base)
}

// Its three masks; 0 where it has no further vertex. Inlined: at each place of a trace the array would else be stored and copied.
#[inline(always)]
pub(crate) fn masks_from(masks: u16, base: u64, out: usize) -> [u64; 3]
    ensures { (n row : ℕ) → InTable n row → MasksAre n row masks → out ≤ n → base ≡ vertex_mask (order_at n row) (skip out 0) → result ≡ facet_masks n row out }
{
    [
        mask_from(masks, base, out, 1),
        mask_from(masks, base, out, 2),
        mask_from(masks, base, out, 3),
    ]
}

// The masks of the facet without vertex `out`: the differences of its vertices from its lowest; 0 where it has no further vertex.
pub fn facet_masks(n: usize, row: usize, out: usize) -> [u64; 3]
    requires { (InTable n row) × (out ≤ n) }
    ensures { result ≡ facet_masks n row out }
{
    let masks = table::vertex_masks(n, row);
    masks_from(masks, table::digit(masks, skip(out, 0)), out)
}

// The side of the facet without vertex `out`. Flat: the vertex left out is the lowest (1) or the highest (0). Bent: the lower of
// the axes before and behind it comes first (0) or last (1). By the count of ones and the trailing zeros, as document 01 wants it read;
// `place::side_from` says the same for the trace, without them, which is faster.
pub fn side(n: usize, row: usize, out: usize) -> u64
    requires { (InTable n row) × (out ≤ n) }
    ensures { result ≡ side_at n row out }
{
    if masks::is_flat(n, facet_masks(n, row, out)[n - 2]) {
        u64::from(out == 0)
    } else {
        let before = added_axis(n, row, out - 1);
        let behind = added_axis(n, row, out);
        u64::from(behind <= before)
    }
}
