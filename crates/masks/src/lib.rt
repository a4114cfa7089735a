// For one dimension, a place of a loss and one end of a leg: the set of the other ends, as the bits of a number. And the places between two nodes.
#![tactic(auto)]

pub mod end;
mod mask;
mod range;
mod row;
pub mod span;
pub mod table;
