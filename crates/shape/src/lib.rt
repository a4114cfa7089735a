// The shape of a machine: extents and wrap with checks 5 and 6, coordinates, and one dimension by itself.
#![tactic(auto)]

pub mod axis;
pub mod shape;

pub use axis::Axis;
pub use shape::{Coords, Dim, Shape};
