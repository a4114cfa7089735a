// The test cases that plan a route and make a packet go along it.
#![tactic(auto)]

mod along_route;
pub mod run_cases;
