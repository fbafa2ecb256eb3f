// Powers of a ground from any count and any powers.

ghost use Rattle.std.specs.Prelude.{◌≡◌, take};

use crate::Powers;

impl Powers {
    // The first n of the powers, but four at most; what stands behind them is left out.
    pub fn take(n: u64, powers: [u64; 4]) -> Powers
        ensures { take result.n result.powers ≡ take n powers }
    {
        let count = n.min(4);
        let mut first = powers;
        for k in 0..4 {
            if count <= k as u64 {
                first[k] = 0;
            }
        }
        Powers {
            n: count,
            powers: first,
        }
    }
}
