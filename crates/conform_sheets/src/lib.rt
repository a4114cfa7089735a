// Test cases of plan sheets, of what they make dead, and of route sheets, a line each.
#![tactic(auto)]

pub mod dead_cases;
mod faults;
pub mod plan_cases;
pub mod route_cases;
pub mod writing_cases;
