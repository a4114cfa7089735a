// The machine of document 01: its nodes and links, the hops between nodes, useful hops and the legs of a route.
#![tactic(auto)]

pub mod hop;
pub mod leg;
pub mod node;
pub mod number;
pub mod ways;
