// A polynomial's terms, 8 bytes each: a signed 32-bit coefficient and four exponent bytes. One pass tests limits and order together: it reads each
// byte once and carries the least weight that the next term may have.

#![tactic(auto)]

ghost use Rattle.std.specs.Prelude.{◌≡◌, ◌+◌, ◌*◌, ◌≤◌, ◌<◌, length, sum, slice_index, EachIndex};
ghost use Rattle.paper.specs.Job.{polynomial_ok};
ghost use Rattle.terms.specs.Carried.{coefficient_ok, exponents_of, exponents_ok, CarriedTo, carried_on};

use bits::read;

// The largest size of a coefficient.
const COEFFICIENT: u64 = 1048576;

// The largest sum of a term's exponents.
const DEGREE: u64 = 4;

// The coefficient of term i is not 0 and not too large. The limit is added to its 32 bits modulo 2^32: those that are not too large then are the
// numbers from 0 to twice the limit.
fn coefficient_ok(b: &[u8], i: usize) -> bool
    requires { 8 * i + 8 ≤ length b.now }
    ensures { result ≡ coefficient_ok b.now i }
{
    let u = read::double_word(b, 8 * i);
    u != 0 && (u + COEFFICIENT) % 4294967296 <= 2 * COEFFICIENT
}

// The four exponents of term i.
fn exponents(b: &[u8], i: usize) -> [u64; 4]
    requires { 8 * i + 8 ≤ length b.now }
    ensures is { result ≡ exponents_of b.now i }
    ensures small { EachIndex result (λ a. slice_index result a < 256) }
{
    let at = 8 * i + 4;
    [
        read::byte(b, at),
        read::byte(b, at + 1),
        read::byte(b, at + 2),
        read::byte(b, at + 3),
    ]
}

// The sum of the exponents.
fn degree(exponents: [u64; 4]) -> u64
    requires { sum exponents < 1024 }
    ensures { result ≡ sum exponents }
{
    exponents.iter().sum()
}

// No exponent of an axis that dimension n does not have, and a sum within the limit.
fn exponents_ok(n: usize, exponents: [u64; 4]) -> bool
    requires { sum exponents < 1024 }
    ensures { result ≡ exponents_ok n exponents }
{
    (0..4).all(|a| a < n || exponents[a] == 0) && degree(exponents) <= DEGREE
}

// What term i leaves for the next one: the least weight that it may have, one more than its own; nothing if term i breaks a limit or does not rise
// over the one before it. A weight has the exponents as digits, axis 1 weighing most; within the limits each is under 8.
fn least_after(n: usize, b: &[u8], i: usize, least: u64) -> Option<u64>
    requires { (8 * i + 8 ≤ length b.now) × (CarriedTo n b.now i least) }
    ensures { result ≡ carried_on n b.now i }
{
    let e = exponents(b, i);
    let weight = ((e[0] * 8 + e[1]) * 8 + e[2]) * 8 + e[3];
    if coefficient_ok(b, i) && exponents_ok(n, e) && least <= weight {
        Some(weight + 1)
    } else {
        None
    }
}

// Every term is within the limits and rises over the one before it. Inlined: its callers know the dimension, and have the loop once for each.
#[inline(always)]
pub fn polynomial_ok(n: usize, b: &[u8]) -> bool
    ensures { result ≡ polynomial_ok n b.now }
{
    let mut least = 0;
    for i in 0..b.len() / 8 {
        match least_after(n, b, i, least) {
            Some(next) => least = next,
            None => return false,
        }
    }
    true
}
