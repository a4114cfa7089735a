// The note of a node: what one via between the source and that node makes, by sets of nodes with clear legs or by the losses.
#![tactic(auto)]

pub mod best;
pub mod note;
pub mod sets_of;
pub mod short;
