// The simplices of the grid in numbers and structs by value: the simplex on a place's side by search of the table, the place onward,
// and the exit.

#![tactic(auto)]

// The search of the table for the simplex on a place's side.
pub mod search;
// The corner of that simplex, and the place on the other side of a facet.
pub mod corners;
// The vertex opposite a simplex's other crossed facet.
pub mod exits;
