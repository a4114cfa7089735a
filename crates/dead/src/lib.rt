// Dead nodes and links of a plan: single questions, and tables for all nodes.
#![tactic(auto)]

mod marks;
mod masks;
mod names;
mod nodes;
mod questions;

pub use masks::dead_masks;
pub use nodes::dead_nodes;
pub use questions::{is_dead_link, is_dead_node};
