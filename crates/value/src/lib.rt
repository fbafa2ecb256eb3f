// Readable sums and values: document 01, section "Crossed", and the bias of request 2.7.

#![tactic(auto)]

ghost use Rattle.std.specs.Prelude.{◌≡◌};
ghost use Rattle.exact.specs.Size.{Size};
ghost use Rattle.paper.specs.Limits.{readable_limit};
ghost use Rattle.paper.specs.Values.{readable_sum, value_of};
ghost use Rattle.polynomial.specs.Sums.{sum_limit};

use bits::read;

// The largest size of a readable sum: 2 ^ 19 in dimension 4, where determinants grow, and 2 ^ 28 below.
fn readable_limit(n: usize) -> u64
    ensures { result ≡ readable_limit n }
{
    if n == 4 { 524288 } else { 268435456 }
}

// A sum is readable up to the limit in size.
pub fn readable(n: usize, z: i64) -> bool
    requires { Size sum_limit z }
    ensures { result ≡ readable_sum n z }
{
    read::size(z) <= readable_limit(n)
}

// The value that judging, stepping and points go by: the sum, or 0 if it is no larger in size than the bias.
pub fn value_of(bias: u64, z: i64) -> i64
    requires { Size sum_limit z }
    ensures { result ≡ value_of bias z }
{
    if read::size(z) <= bias { 0 } else { z }
}
