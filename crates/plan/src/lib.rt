// The plan sheet: its layout, its checks, its shape and weights, and writing it back.
#![tactic(auto)]

mod checks;
pub mod kinds;
pub mod layout;
mod reading;
mod writing;

pub use checks::check;
pub use layout::Fault;
pub use reading::{shape_of, weights_of};
pub use writing::write_back;
