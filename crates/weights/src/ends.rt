// Two places of a weighted machine.
use crate::weights::Weights;
use shape::{Coords, Shape};

#[derive(Clone, Copy)]
pub struct Ends {
    pub weights: Weights,
    pub shape: Shape,
    pub a: Coords,
    pub t: Coords,
}
