// Little-endian numbers, unsigned and signed. Each reader asks that its last byte lies inside the list.
// Four functions and not one over the type: `from_le_bytes` is in no trait of the library, and a trait here would have an impl for each.

ghost use Rattle.std.specs.Prelude.{◌≡◌, ◌+◌, ◌≤◌, ◌<◌, length, nat_abs};
ghost use Rattle.exact.specs.Size.{Is};
ghost use Rattle.paper.specs.Bytes.{byte, word, double_word, signed, signed_word, signed_double_word};
ghost use Rattle.bits.specs.Read.{Reads};

pub fn byte(s: &[u8], k: usize) -> u64
    requires { k < length s.now }
    ensures { Reads 256 (byte s.now k) result }
{
    u64::from(s[k])
}

// 16 bits.
pub fn word(s: &[u8], k: usize) -> u64
    requires { k + 1 < length s.now }
    ensures { Reads 65536 (word s.now k) result }
{
    u64::from(u16::from_le_bytes([s[k], s[k + 1]]))
}

// 32 bits.
pub fn double_word(s: &[u8], k: usize) -> u64
    requires { k + 3 < length s.now }
    ensures { Reads 4294967296 (double_word s.now k) result }
{
    u64::from(u32::from_le_bytes([s[k], s[k + 1], s[k + 2], s[k + 3]]))
}

// An unsigned number under 2 · half as a signed one, for any width: those from half on stand for the number less 2 · half.
pub fn signed(half: u64, u: u64) -> i64
    requires { (half ≤ 2147483648) × (u < half + half) }
    ensures { Is half (signed half u) result }
{
    if u < half {
        u as i64
    } else {
        -((half + half - u) as i64)
    }
}

// 16 bits, signed.
pub fn signed_word(s: &[u8], k: usize) -> i64
    requires { k + 1 < length s.now }
    ensures { Is 32768 (signed_word s.now k) result }
{
    i64::from(i16::from_le_bytes([s[k], s[k + 1]]))
}

// 32 bits, signed.
pub fn signed_double_word(s: &[u8], k: usize) -> i64
    requires { k + 3 < length s.now }
    ensures { Is 2147483648 (signed_double_word s.now k) result }
{
    i64::from(i32::from_le_bytes([s[k], s[k + 1], s[k + 2], s[k + 3]]))
}

// The absolute value.
pub fn size(z: i64) -> u64
    ensures { result ≡ nat_abs z }
{
    z.unsigned_abs()
}
