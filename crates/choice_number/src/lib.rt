// A note, and what a second via can reach, read back as what planning a pair answers.
#![tactic(auto)]

pub mod read;
