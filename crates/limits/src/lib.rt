// The dimensions, and the limit of terms that each one has.

#![tactic(auto)]

ghost use Rattle.std.specs.Prelude.{◌≡◌};
ghost use Rattle.paper.specs.Limits.{dimension_ok, term_limit};
ghost use Rattle.bits.specs.Axes.{Axes};

// The dimensions are 2, 3 and 4.
#[tactic(auto, unfolding(paper::specs::Limits::dimension_ok))]
pub fn dimension_ok(n: usize) -> bool
    ensures { result ≡ dimension_ok n }
{
    (2..=4).contains(&n)
}

// The limits of terms for the dimensions from 2 on.
const TERM_LIMITS: [usize; 3] = [15, 35, 70];

// The most terms of a polynomial.
pub fn term_limit(n: usize) -> usize
    requires { Axes n }
    ensures { result ≡ term_limit n }
{
    TERM_LIMITS[n - 2]
}
