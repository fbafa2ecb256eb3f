// The least facet of a seam.

#![tactic(auto)]

// The order of facets.
pub mod order;
// The walk both ways.
pub mod search;
