// Indices of a list without one of its elements.

ghost use Rattle.std.specs.Prelude.{◌≡◌, ◌+◌, ◌≤◌, ◌<◌};
ghost use Rattle.exact.specs.Minors.{skip};

// The place in the whole list of element i of the list without element p.
pub fn skip(p: usize, i: usize) -> usize
    requires { i < 5 }
    ensures { (result ≡ skip p i) × (result ≤ i + 1) }
{
    if i < p { i } else { i + 1 }
}
