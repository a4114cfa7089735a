// Test cases of planning, a line each: a pair, the sheet of a source, and the listing.
#![tactic(auto)]

pub mod listing_cases;
pub mod pair_cases;
pub mod sheet_cases;
