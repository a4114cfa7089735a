// Sets of nodes as rows of bits.
#![tactic(auto)]

pub mod member;
pub mod next;
pub mod product;
