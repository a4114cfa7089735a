// Searches for vias in sets of nodes. A set is 256 rows of bits; a set toward a destination stands at a place of a lent run.
#![tactic(auto)]

pub mod along;
pub mod best;
pub mod dets;
mod level;
pub mod listed;
pub mod lowest;
mod marks;
pub mod near;
pub mod outward;
mod parts;
