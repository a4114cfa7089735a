// The route sheets of all sound boards of a plan, sources rising: a run of them a call, with a lent workspace.
#![tactic(auto)]

mod input;

pub use input::{ROOM, WORDS, run_of_input, sets_of_input};
pub use planner::run::{Run, RunRefusal, WORDS_A_BOARD, write_run};
