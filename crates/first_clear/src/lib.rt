// The first clear choice to one destination, where the direct adaptive leg is not clear, by the notes of the nodes.
#![tactic(auto)]

pub mod dest;
pub mod far;
pub mod near;
