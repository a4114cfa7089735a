// The route sheet in its bytes: its layout, check 13, and looking up a destination.
#![tactic(auto)]

pub mod checks;
pub mod kinds;
pub mod layout;
pub mod lookup;
pub mod route;

pub use checks::check;
pub use layout::{Entry, Format};
