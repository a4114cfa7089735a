// Fields of a line, which is a test case: those that a line gives, and those that an answer has.
#![tactic(auto)]

pub mod answers;
pub mod leg_fields;
pub mod lists;
pub mod nodes;
pub mod shapes;
pub mod sheets;
