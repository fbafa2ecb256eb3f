// The answer of the operation that reads a formula: document 02, request 2.1. What it is, is defined in specs/Read.antt.

#![tactic(auto)]

ghost use Rattle.std.specs.Prelude.{◌≡◌};
ghost use Rattle.formula.specs.Read.{byte_count, zero_bytes};

// The count of terms, and the terms, 8 bytes each as in a job. Bytes behind them are 0.
#[derive(Clone, Copy, Debug, PartialEq, Eq)]
pub struct TermList {
    pub count: u64,
    pub bytes: [u8; 560],
}

// No terms. By hand, since an array of 560 has no `Default`.
impl Default for TermList {
    ghost is_default = { λ t. (t.count ≡ 0) × (t.bytes ≡ zero_bytes byte_count) };

    #[tactic(auto, unfolding(crate::specs::Read::byte_count, crate::specs::Read::zero_bytes))]
    fn default() -> TermList {
        let bytes = [0; 560];
        TermList { count: 0, bytes }
    }
}
