// The text of the listing program, on lent bytes.
#![tactic(auto)]

mod checks;
mod header;
mod input;
mod lent;
mod line;
mod refusal;
mod said;
mod writing;

pub use input::{INPUT_BYTES, TEXT_BYTES, listing};
pub use writing::listing_text;
