// A place written as its bytes.
// Buffer and position stay two parameters, and no part of the buffer is handed over: the callers say what the whole buffer then is.

#![tactic(auto)]

ghost use Rattle.std.specs.Prelude.{◌≡◌, true, ◌+◌, ◌*◌, ◌-◌, ◌≤◌, ◌<◌, length, set};
ghost use Rattle.std.proofs.lemmas.List.Edits.{sets};
ghost use Rattle.curves.specs.Grid.{chain};
ghost use Rattle.curves.specs.Step.{every};
ghost use Rattle.paper.proofs.ShortPlaces.{short};
ghost use Rattle.paper.specs.Bytes.{word_bytes};
ghost use Rattle.paper.specs.Job.{vertex_bytes, encode_place};
ghost use Rattle.bits.specs.Axes.{Axes};
ghost use Rattle.places.specs.Held.{vertex_as, masks_as, place_as};
ghost use Rattle.places.specs.PlaceBytes.{FitsBytes};

use paper::{HeldPlace, Vertex};

// The two bytes of a coordinate, the low one first. It is signed and fits, where `laying::lay_word` takes the low 16 bits of any number.
fn put_word(buffer: &mut [u8], at: usize, x: i64)
    requires { (short x ≡ true) × (at + 2 ≤ length buffer.old) }
    ensures { buffer.new ≡ sets buffer.old at (word_bytes x) }
{
    let bytes = (x as i16).to_le_bytes();
    buffer[at] = bytes[0];
    buffer[at + 1] = bytes[1];
}

// A mask or a side. As `decimals::put_byte`, which answers the position behind it.
fn put_byte(buffer: &mut [u8], at: usize, b: u64)
    requires { (b < 256) × (at < length buffer.old) }
    ensures { buffer.new ≡ set buffer.old at b }
{
    buffer[at] = b as u8;
}

// The coordinates, two bytes each.
fn put_vertex(buffer: &mut [u8], at: usize, n: usize, v: Vertex)
    requires { (Axes n) × ((every short (vertex_as n v) ≡ true) × (at + 2 * n ≤ length buffer.old)) }
    ensures { buffer.new ≡ sets buffer.old at (vertex_bytes (vertex_as n v)) }
{
    // A trace writes a place at each turn: with a bound that is a constant the loop is unrolled.
    for a in 0..4 {
        if a < n {
            put_word(buffer, at + 2 * a, v.coordinates[a]);
        }
    }
}

// The masks, a byte each.
fn put_masks(buffer: &mut [u8], at: usize, n: usize, p: HeldPlace)
    requires { (Axes n) × ((chain n 0 (masks_as n p) ≡ true) × (at + (n - 1) ≤ length buffer.old)) }
    ensures { buffer.new ≡ sets buffer.old at (masks_as n p) }
{
    let masks = n - 1;
    // A constant bound, as in `put_vertex`.
    for k in 0..3 {
        if k < masks {
            put_byte(buffer, at + k, p.masks[k]);
        }
    }
}

// The 3n bytes of a place: n coordinates, n − 1 masks, the side.
pub fn write_place(buffer: &mut [u8], at: usize, n: usize, p: HeldPlace)
    requires { (FitsBytes n p) × (at + 3 * n ≤ length buffer.old) }
    ensures { buffer.new ≡ sets buffer.old at (encode_place (place_as n p)) }
{
    put_vertex(buffer, at, n, p.low);
    put_masks(buffer, at + 2 * n, n, p);
    put_byte(buffer, at + 3 * n - 1, p.side);
}
