// The bits of a job's bytes: numbers of one to four bytes, masks of axes, and indices.

#![tactic(auto)]

// Little-endian numbers in a list of bytes.
pub mod read;
// Flat or bent, and the axes of masks.
pub mod masks;
// Indices of a list without one of its elements.
pub mod index;
