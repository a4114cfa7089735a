// The packet and its stepper: with `machine`, what a board links.
#![tactic(auto)]

mod course;
mod packet;
mod route;
mod stepper;
mod taking_back;

pub use packet::{Legs, MOST_LEGS, Packet};
pub use route::Route;
pub use stepper::{Ending, Stepped, Walked};
