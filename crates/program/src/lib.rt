// What the programs share: their arguments, how they read, how they count, why they fail, what they say, and the file OUT.part, which takes the name OUT when
// the job is done.
#![tactic(auto)]

pub mod argument;
pub mod count;
pub mod failure;
pub mod file;
pub mod input;
pub mod part_file;
pub mod say;
#[cfg(test)]
mod tests;
