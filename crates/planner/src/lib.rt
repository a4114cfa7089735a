// Planning: a pair, the sheet of a source, all outcomes of a source, and a run of the sheets of all sources.
#![tactic(auto)]

mod boards;
mod dest;
mod errors;
mod fill;
mod known;
mod listed;
mod noting;
pub mod outcomes;
mod outside;
mod outward;
pub mod pair;
pub mod run;
pub mod sheets;
mod sifted;
mod source;
mod tables;
mod target;
mod two;
