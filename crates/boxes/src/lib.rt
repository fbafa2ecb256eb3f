// The box: per axis a low and a high end.

#![tactic(auto)]

ghost use Rattle.std.specs.Prelude.{◌≡◌, ◌+◌, ◌*◌, ◌≤◌, length};
ghost use Rattle.paper.specs.Job.{box_ok};
ghost use Rattle.boxes.specs.Between.{axis_between, box_between};

use bits::read;

// Both ends are within the limits, low under high.
fn axis_between(lowest: i64, highest: i64, b: &[u8], a: usize) -> bool
    requires { 4 * a + 4 ≤ length b.now }
    ensures { result ≡ axis_between lowest highest b.now a }
{
    let low = read::signed_word(b, 4 * a);
    let high = read::signed_word(b, 4 * a + 2);
    lowest <= low && low < high && high <= highest
}

// On each axis both ends are within the limits, low under high.
pub fn box_between(lowest: i64, highest: i64, n: usize, b: &[u8]) -> bool
    requires { length b.now ≡ 4 * n }
    ensures { result ≡ box_between lowest highest n b.now }
{
    (0..n).all(|a| axis_between(lowest, highest, b, a))
}

// The lowest and the highest coordinate of a box end.
const LOWEST: i64 = -256;

const HIGHEST: i64 = 256;

// The box of a job is right.
pub fn box_ok(n: usize, b: &[u8]) -> bool
    requires { length b.now ≡ 4 * n }
    ensures { result ≡ box_ok n b.now }
{
    box_between(LOWEST, HIGHEST, n, b)
}
