// The legs that are clear where some losses are all that is lost: as sets of nodes, and one by itself.
#![tactic(auto)]

mod cells;
pub mod clear;
pub mod leg;
mod part;
pub mod sift;
