// Reading the fields of a line of text, and writing a line, on lent bytes.
//
// Every function is total: a position past the end counts as the end, and what does not fit is cut.
#![tactic(auto)]

pub mod decimal;
pub mod field;
pub mod hex;
pub mod part;
pub mod scan;
pub mod writer;
