// The listing's lines: document 01, section "The listing", written into a lent buffer.

#![tactic(auto)]

ghost use Rattle.std.specs.Prelude.{[], ◌∷◌, ◌+◌, ◌*◌, ◌≤◌, pos, map, length, take};
ghost use Rattle.paper.specs.Answers.{verdict_as};
ghost use Rattle.paper.specs.Listing.{blank_numbers, verdict_word, refused_line, first_line, place_line};
ghost use Rattle.decimals.specs.Written.{Writes};
ghost use Rattle.bits.specs.Axes.{Axes};
ghost use Rattle.places.specs.Held.{facet_as};
ghost use Rattle.text.specs.Lines.{line_limit};

use decimals::{put_byte, put_decimal, put_signed, put_word};
use paper::{HeldPlace, StepPoint, Verdict};

// A blank and a number.
fn put_next(buffer: &mut [u8], at: usize, z: i64) -> usize
    requires { at + 22 ≤ length buffer.old }
    ensures { Writes 22 (blank_numbers (z ∷ [])) at buffer.old buffer.new result }
{
    let a = put_byte(buffer, at, b' ');
    put_signed(buffer, a, z)
}

// A blank and a mask. It and `put_masks` stay beside the functions of signed numbers: one trait for both would need a ghost text and a bound for
// each type and the laws that lead from them to the listing's numbers, which is longer than these two functions.
fn put_mask(buffer: &mut [u8], at: usize, mask: u64) -> usize
    requires { at + 21 ≤ length buffer.old }
    ensures { Writes 21 (blank_numbers (pos mask ∷ [])) at buffer.old buffer.new result }
{
    let a = put_byte(buffer, at, b' ');
    put_decimal(buffer, a, mask)
}

// ---- parts of a place's line

// Each number behind a blank.
pub fn put_numbers(buffer: &mut [u8], at: usize, numbers: &[i64]) -> usize
    requires { at + 22 * length numbers.now ≤ length buffer.old }
    ensures { Writes (22 * length numbers.now) (blank_numbers numbers.now) at buffer.old buffer.new result }
{
    let mut end = at;
    for z in numbers {
        end = put_next(buffer, end, *z);
    }
    end
}

// Each mask behind a blank.
pub fn put_masks(buffer: &mut [u8], at: usize, masks: &[u64]) -> usize
    requires { at + 21 * length masks.now ≤ length buffer.old }
    ensures { Writes (21 * length masks.now) (blank_numbers (map pos masks.now)) at buffer.old buffer.new result }
{
    let mut end = at;
    for mask in masks {
        end = put_mask(buffer, end, *mask);
    }
    end
}

fn put_verdict(buffer: &mut [u8], at: usize, v: Verdict) -> usize
    requires { at + 5 ≤ length buffer.old }
    ensures { Writes 5 (verdict_word (verdict_as v)) at buffer.old buffer.new result }
{
    let word: &[u8] = match v {
        Verdict::Loop => b"loop",
        Verdict::Edge => b"edge",
        Verdict::Limit => b"limit",
        Verdict::Full => b"full",
    };
    put_word(buffer, at, word)
}

// ---- lines

// `refused` and the number.
pub fn put_refused(buffer: &mut [u8], at: usize, k: u64) -> usize
    requires { at + 29 ≤ length buffer.old }
    ensures { Writes 29 (refused_line k) at buffer.old buffer.new result }
{
    let a = put_word(buffer, at, b"refused ");
    let b = put_decimal(buffer, a, k);
    put_byte(buffer, b, b'\n')
}

// n, verdict, count.
pub fn put_first(buffer: &mut [u8], at: usize, n: u64, v: Verdict, count: u64) -> usize
    requires { at + 48 ≤ length buffer.old }
    ensures { Writes 48 (first_line n (verdict_as v) count) at buffer.old buffer.new result }
{
    let a = put_decimal(buffer, at, n);
    let b = put_byte(buffer, a, b' ');
    let c = put_verdict(buffer, b, v);
    let d = put_byte(buffer, c, b' ');
    let e = put_decimal(buffer, d, count);
    put_byte(buffer, e, b'\n')
}

// Lowest vertex, masks, point in steps: the numbers of each that count.
pub fn put_place(buffer: &mut [u8], at: usize, n: usize, p: HeldPlace, q: StepPoint) -> usize
    requires { (Axes n) × (at + line_limit ≤ length buffer.old) }
    ensures { Writes line_limit (place_line (facet_as n p) (take n q.steps)) at buffer.old buffer.new result }
{
    let a = put_signed(buffer, at, p.low.coordinates[0]);
    let b = put_numbers(buffer, a, &p.low.coordinates[1..n]);
    let c = put_masks(buffer, b, &p.masks[..n - 1]);
    let d = put_numbers(buffer, c, &q.steps[..n]);
    put_byte(buffer, d, b'\n')
}
