// The answer of the operation that lists every seam in a box: document 02, request 2.4. What it is, is defined in specs/JobSeams.antt.

#![tactic(auto)]

// All seams are written, or as many as there was space for, and one more remains.
#[derive(Clone, Copy, Debug, PartialEq, Eq)]
pub enum Extent {
    Complete,
    Full,
}

// The count of places written.
#[derive(Clone, Copy, Debug, PartialEq, Eq)]
pub struct Seamed {
    pub extent: Extent,
    pub count: u64,
}
