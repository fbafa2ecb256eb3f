// The programs' input: room for what they read and print, and the reading.

#![tactic(auto)]

ghost use Rattle.std.specs.Prelude.{◌≡◌, ℕ, ◌≤◌, IfOk, length, slice_index};

use std::io;
use std::io::Read;

// Room of so many bytes, all 0.
pub fn room<const N: usize>() -> [u8; N]
    ensures long { length result ≡ N }
    ensures zeros { (k : ℕ) → slice_index result k ≡ 0 }
{
    [0; N]
}

// Reads until the bytes are full or the input ends, and answers how many were read. A `while`: a turn goes on by as many bytes as came.
pub fn read_full<R: Read>(input: &mut R, bytes: &mut [u8]) -> io::Result<usize>
    ensures { IfOk result (λ n. n ≤ length bytes.new) }
{
    let mut done = 0;
    while done < bytes.len() {
        let n = input.read(&mut bytes[done..])?;
        if n == 0 {
            break;
        }
        done += n;
    }
    Ok(done)
}
