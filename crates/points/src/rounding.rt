// The rounding of a point: a share of a unit in steps of 1/1024, to the nearest, a half to the even count.
ghost use Rattle.std.specs.Prelude.{◌≡◌, ◌<◌, ◌≤◌, pos};
ghost use Rattle.paper.specs.Values.{share_steps};
ghost use Rattle.points.specs.Shares.{denominator_limit};

use std::cmp::Ordering;

// The steps of the share num / den. 1024 · num may leave 64 bits, so it is made by ten doublings, each of which takes den out at most once:
// then it is steps · den + rest, with rest at most den.
pub fn share_steps(num: u64, den: u64) -> u64
    requires { (0 < den) × ((num ≤ den) × (den ≤ denominator_limit)) }
    ensures { pos result ≡ share_steps (pos num) (pos den) }
{
    let mut steps: u64 = 0;
    let mut rest = num;
    for _ in 0..10usize {
        steps *= 2;
        rest *= 2;
        if den <= rest {
            steps += 1;
            rest -= den;
        }
    }
    match (2 * rest).cmp(&den) {
        Ordering::Less => steps,
        Ordering::Greater => steps + 1,
        Ordering::Equal => steps + steps % 2,
    }
}
