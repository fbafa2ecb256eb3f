// Places as bytes: tested, read, compared. Vertices and places have room for four axes.

#![tactic(auto)]

ghost use Rattle.std.specs.Prelude.{◌≡◌, ◌*◌, length};
ghost use Rattle.curves.specs.Grid.{chain, place_ok, same_vertex, same_masks};
ghost use Rattle.paper.specs.Job.{decode_place};
ghost use Rattle.paper.specs.Operations.{on_same_facet};
ghost use Rattle.paper.specs.Answers.{placed_as, padded_place};
ghost use Rattle.bits.specs.Axes.{Axes};
ghost use Rattle.places.specs.Held.{place_as};
ghost use Rattle.places.specs.PlaceBytes.{VertexRead, MasksRead, PlaceRead};

use bits::{masks, read};
use paper::{HeldPlace, Vertex};

// ---- the form of a place

// Each mask has no bit for an axis above n, and strictly holds the one before; the first is not 0.
fn chain_ok(n: usize, bytes: &[u8]) -> bool
    requires { Axes n }
    ensures { result ≡ chain n 0 bytes.now }
{
    let mut before = 0;
    for byte in bytes {
        let mask = u64::from(*byte);
        if 1 << n <= mask || !masks::holds(mask, before) || mask == before {
            return false;
        }
        before = mask;
    }
    true
}

// A place of 3n bytes: each mask strictly holds the one before, and the side is 0 or 1.
pub fn place_ok(n: usize, p: &[u8]) -> bool
    requires { (Axes n) × (length p.now ≡ 3 * n) }
    ensures { result ≡ place_ok n (decode_place n p.now) }
{
    chain_ok(n, &p[2 * n..3 * n - 1]) && read::byte(p, 3 * n - 1) < 2
}

// ---- a place read from its bytes

// The coordinates, two bytes each.
fn read_vertex(n: usize, p: &[u8]) -> Vertex
    requires { (Axes n) × (length p.now ≡ 3 * n) }
    ensures { VertexRead n p.now result }
{
    let mut coordinates = [0; 4];
    for a in 0..n {
        coordinates[a] = read::signed_word(p, 2 * a);
    }
    Vertex { coordinates }
}

// The masks, a byte each.
fn read_masks(n: usize, p: &[u8]) -> [u64; 3]
    requires { (Axes n) × (length p.now ≡ 3 * n) }
    ensures { MasksRead n p.now result }
{
    let mut masks = [0; 3];
    for k in 0..n - 1 {
        masks[k] = read::byte(p, 2 * n + k);
    }
    masks
}

// The place in 3n bytes: n signed 16-bit coordinates, n − 1 masks, a side.
pub fn read_place(n: usize, p: &[u8]) -> HeldPlace
    requires { (Axes n) × (length p.now ≡ 3 * n) }
    ensures { PlaceRead n p.now result }
{
    HeldPlace {
        low: read_vertex(n, p),
        masks: read_masks(n, p),
        side: read::byte(p, 3 * n - 1),
    }
}

// ---- two places on the same facet

// Two places have the same facet. Inlined: as a call it would copy both places, at each turn of a trace.
#[inline(always)]
pub fn same_facet(n: usize, p: HeldPlace, q: HeldPlace) -> bool
    requires { Axes n }
    ensures { result ≡ on_same_facet (place_as n p) (place_as n q) }
{
    let masks = n - 1;
    // Along a trace nearly all lowest vertices differ from the start's on axis 1, and no more is looked at then.
    p.low.coordinates[0] == q.low.coordinates[0]
        && p.low.coordinates[..n] == q.low.coordinates[..n]
        && p.masks[..masks] == q.masks[..masks]
}

// ---- the public answer

// The place as an answer has it: numbers that do not count are 0.
pub fn answer_place(n: usize, p: HeldPlace) -> HeldPlace
    requires { Axes n }
    ensures { placed_as result ≡ padded_place (place_as n p) }
{
    let mut coordinates = [0; 4];
    coordinates[..n].copy_from_slice(&p.low.coordinates[..n]);
    let mut masks = [0; 3];
    masks[..n - 1].copy_from_slice(&p.masks[..n - 1]);
    HeldPlace {
        low: Vertex { coordinates },
        masks,
        side: p.side,
    }
}
