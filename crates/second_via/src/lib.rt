// Choices with two vias: what each node can reach as the second one, and the least of an array over a set of nodes.
#![tactic(auto)]

mod below;
pub mod least;
pub mod reach;
