// The facets of the simplex with a row's order, and its places.

#![tactic(auto)]

// The facets of a row: masks and side.
pub mod facet;
// The places of a simplex: a facet's lowest vertex, masks and side.
pub mod place;
