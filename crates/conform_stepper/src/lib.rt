// Test cases of the stepper, a line each: what a line gives is read, the call is made, and what it answers is written behind it. Also packets, and lists
// of calls on a packet, as text.
#![tactic(auto)]

pub mod calls;
mod endings;
pub mod packets;
pub mod step;
pub mod walk;
