// Vertices: moved up or down along the axes of a mask, and tested against the box.

#![tactic(auto)]

ghost use Rattle.std.specs.Prelude.{◌≡◌, ◌+◌, ◌*◌, ◌<◌, length};
ghost use Rattle.exact.specs.Size.{Size};
ghost use Rattle.paper.specs.Values.{inside_from};
ghost use Rattle.bits.specs.Axes.{Axes};
ghost use Rattle.places.specs.Held.{vertex_as, VertexSize};
ghost use Rattle.lattice.specs.Moves.{move_limit, moved_by, Shifted, Lowered};
ghost use Rattle.lattice.specs.Box.{axis_inside};

use bits::read;
use paper::Vertex;

// The vertex with a step, 1 or − 1, added on each axis of a mask. Inlined: a trace calls it in two places, each with a step that is a constant,
// and then nothing is multiplied.
#[inline(always)]
fn moved(v: Vertex, mask: u64, step: i64) -> Vertex
    requires { (VertexSize move_limit v) × (Size 1 step) }
    ensures { result.coordinates ≡ moved_by step v.coordinates mask }
{
    let mut coordinates = v.coordinates;
    for a in 0..4 {
        coordinates[a] += step * (mask >> a & 1) as i64;
    }
    Vertex { coordinates }
}

// The vertex with 1 added on each axis of a mask.
pub fn shifted(v: Vertex, mask: u64) -> Vertex
    requires { VertexSize move_limit v }
    ensures { Shifted v mask result }
{
    moved(v, mask, 1)
}

// The vertex with 1 taken off on each axis of a mask.
pub fn lowered(v: Vertex, mask: u64) -> Vertex
    requires { VertexSize move_limit v }
    ensures { Lowered v mask result }
{
    moved(v, mask, -1)
}

// A coordinate lies from the low to the high end of an axis, both ends included.
fn axis_inside(bounds: &[u8], axis: usize, x: i64) -> bool
    requires { 4 * axis + 3 < length bounds.now }
    ensures { result ≡ axis_inside bounds.now axis x }
{
    read::signed_word(bounds, 4 * axis) <= x && x <= read::signed_word(bounds, 4 * axis + 2)
}

// A vertex lies in the box. A trace tests a vertex at each turn: with a bound that is a constant the loop is unrolled.
pub fn inside(bounds: &[u8], n: usize, v: Vertex) -> bool
    requires { (Axes n) × (length bounds.now ≡ 4 * n) }
    ensures { result ≡ inside_from bounds.now 0 (vertex_as n v) }
{
    (0..4).all(|axis| n <= axis || axis_inside(bounds, axis, v.coordinates[axis]))
}
