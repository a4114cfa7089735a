// The losses of a plan: one for each fault.
#![tactic(auto)]

mod list;
mod reading;
mod words;

pub use list::Losses;
pub use reading::losses;
