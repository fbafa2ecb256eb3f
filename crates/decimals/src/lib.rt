// Bytes, words and whole numbers in base ten, written into a lent buffer. A function that writes at a position answers the position
// behind its text and leaves every other byte as it was. Buffer and position stay two parameters: a struct that holds the lent buffer
// is known only through its reference (as in the crate writer), and each contract here would grow by that.

#![tactic(auto)]

ghost use Rattle.std.specs.Prelude.{◌≡◌, [], ◌∷◌, ◌+◌, ◌≤◌, ◌<◌, length};
ghost use Rattle.paper.specs.Listing.{decimal, signed_decimal};
ghost use Rattle.decimals.specs.Written.{Writes};

// ---- bytes

// A byte.
pub fn put_byte(buffer: &mut [u8], at: usize, b: u8) -> usize
    requires { at < length buffer.old }
    ensures { Writes 1 (b ∷ []) at buffer.old buffer.new result }
{
    buffer[at] = b;
    at + 1
}

// A word.
pub fn put_word(buffer: &mut [u8], at: usize, word: &[u8]) -> usize
    requires { at + length word.now ≤ length buffer.old }
    ensures { Writes (length word.now) word.now at buffer.old buffer.new result }
{
    let end = at + word.len();
    buffer[at..end].copy_from_slice(word);
    end
}

// ---- numbers

// The digit of a number under ten.
fn digit(a: u64) -> u8
    requires { a < 10 }
    ensures { result ≡ 48 + a }
{
    48 + a as u8
}

// A number in base ten.
pub fn put_decimal(buffer: &mut [u8], at: usize, a: u64) -> usize
    requires { at + 20 ≤ length buffer.old }
    ensures { Writes 20 (decimal a) at buffer.old buffer.new result }
{
    if a < 10 {
        put_byte(buffer, at, digit(a))
    } else {
        let last = put_decimal(buffer, at, a / 10);
        put_byte(buffer, last, digit(a % 10))
    }
}

// A minus sign in front of a number under 0.
pub fn put_signed(buffer: &mut [u8], at: usize, z: i64) -> usize
    requires { at + 21 ≤ length buffer.old }
    ensures { Writes 21 (signed_decimal z) at buffer.old buffer.new result }
{
    if z < 0 {
        let b = put_byte(buffer, at, b'-');
        put_decimal(buffer, b, z.unsigned_abs())
    } else {
        put_decimal(buffer, at, z.unsigned_abs())
    }
}
