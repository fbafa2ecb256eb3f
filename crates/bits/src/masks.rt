// Masks: bit a stands for axis a. The count of ones decides flat or bent, the trailing zeros name an axis.

ghost use Rattle.std.specs.Prelude.{◌≡◌, List, ◌∷◌, ℕ, suc, ◌≤◌, ◌<◌, ◌^◌, eqb};
ghost use Rattle.std.specs.Int.Count.{ones};
ghost use Rattle.curves.specs.Grid.{axes, holds};

// A facet whose last mask has n − 1 ones is flat.
pub fn is_flat(n: usize, last: u64) -> bool
    ensures { result ≡ eqb (suc (ones last)) n }
{
    u64::count_ones(last) as usize + 1 == n
}

// The lowest axis of a mask.
pub fn axis_of(mask: u64) -> usize
    ensures { (n a : ℕ) (rest : List ℕ) → n ≤ 64 → axes n mask ≡ a ∷ rest → result ≡ a }
{
    u64::trailing_zeros(mask) as usize
}

// Every axis of the mask l is one of m.
pub fn holds(m: u64, l: u64) -> bool
    ensures { (n : ℕ) → l < 2 ^ n → result ≡ holds n m l }
{
    l & m == l
}
