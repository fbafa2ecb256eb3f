// The chains of masks of two, of three and of four axes as one constant table, and the facet with a lowest vertex and a chain.

#![tactic(auto)]

ghost use Rattle.std.specs.Prelude.{◌≡◌, ◌<◌, length};
ghost use Rattle.curves.specs.Box.{chains};
ghost use Rattle.bits.specs.Axes.{Axes};
ghost use Rattle.chains.specs.Chains.{chain_array, first_chain, PlaceOn};

use paper::{HeldPlace, Vertex};

// Each chain in rising order, its first mask on the left; where it has no further mask, 0.
const CHAINS: [u16; 75] = [
    0x100, 0x200, 0x300, 0x130, 0x150, 0x170, 0x230, 0x260, 0x270, 0x370, 0x450, 0x460, 0x470,
    0x570, 0x670, 0x137, 0x13B, 0x13F, 0x157, 0x15D, 0x15F, 0x17F, 0x19B, 0x19D, 0x19F, 0x1BF,
    0x1DF, 0x237, 0x23B, 0x23F, 0x267, 0x26E, 0x26F, 0x27F, 0x2AB, 0x2AE, 0x2AF, 0x2BF, 0x2EF,
    0x37F, 0x3BF, 0x457, 0x45D, 0x45F, 0x467, 0x46E, 0x46F, 0x47F, 0x4CD, 0x4CE, 0x4CF, 0x4DF,
    0x4EF, 0x57F, 0x5DF, 0x67F, 0x6EF, 0x89B, 0x89D, 0x89F, 0x8AB, 0x8AE, 0x8AF, 0x8BF, 0x8CD,
    0x8CE, 0x8CF, 0x8DF, 0x8EF, 0x9BF, 0x9DF, 0xABF, 0xAEF, 0xCDF, 0xCEF,
];

// The table, as an array that a whole scan goes over.
pub fn table() -> [u16; 75]
    ensures { result ≡ chain_array }
{
    CHAINS
}

// The entry of the table at which the chains of n axes begin.
pub fn first(n: usize) -> usize
    requires { Axes n }
    ensures { result ≡ first_chain n }
{
    match n {
        2 => 0,
        3 => 3,
        _ => 15,
    }
}

// How many there are.
pub fn count(n: usize) -> usize
    requires { Axes n }
    ensures { result ≡ length (chains n) }
{
    match n {
        2 => 3,
        3 => 12,
        _ => 60,
    }
}

// The facet with a lowest vertex and a chain, with side 0.
pub fn place_on(v: Vertex, chain: u16) -> HeldPlace
    ensures { PlaceOn v chain result }
{
    let word = u64::from(chain);
    HeldPlace {
        low: v,
        masks: [word / 256, word / 16 % 16, word % 16],
        side: 0,
    }
}
