// The route sheet as a value: read from a sheet, and written to one; a sheet written back; and a sheet made in place.
#![tactic(auto)]

mod encode;
mod making;
mod reading;
mod writing;

pub use making::{put_made, set_entry};
pub use reading::{Routes, read};
pub use writing::{write, write_back};
