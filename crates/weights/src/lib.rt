// Long cables: a weight for each dimension with check 16, and the distance of two nodes, in which a hop counts its dimension's weight.
#![tactic(auto)]

pub mod distance;
pub mod ends;
pub mod weights;

pub use ends::Ends;
pub use weights::Weights;
