// Route sheets of version 1 brought over to version 2.
#![tactic(auto)]

mod converting;
mod half;
mod judge;
mod keep;

pub use converting::{Converted, convert};
