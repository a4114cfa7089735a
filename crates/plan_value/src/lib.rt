// A plan as a value: read from a sheet, and written to one.
#![tactic(auto)]

mod encode;
mod reading;
mod writing;

pub use reading::{Plan, read};
pub use writing::write;
