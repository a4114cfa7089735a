// The distance of two nodes, by weight. Every call is total.
ghost use Rattle.std.specs.Prelude.{◌≡◌, ◌≤◌};
ghost use Rattle.weights.specs.Distance.{distance_answer};
ghost use Rattle.weights.specs.Steps.{distance_word};

use crate::weights::Weights;
use machine::hop::hops_along;
use machine::node::{are_pair, coords};
use shape::{Coords, Dim, Shape};

// Of any coordinates and weights: modulo 65,536.
#[tactic(auto, using(crate::proofs::ByCoords::product_small), unfolding(crate::specs::Steps::distance_at, crate::specs::Steps::distance_word))]
pub fn distance_at(weights: Weights, shape: Shape, at: Coords, to: Coords) -> u16
    ensures { result ≡ distance_word weights shape at to }
{
    let x = weights.x as u32 * hops_along(shape, at, to, Dim::X) as u32;
    let y = weights.y as u32 * hops_along(shape, at, to, Dim::Y) as u32;
    let z = weights.z as u32 * hops_along(shape, at, to, Dim::Z) as u32;
    ((x + y + z) % 65536) as u16
}

// 0 where check 16 declines the weights, or a node does not exist: a number and no Option, since `distance_answer` of specs/Distance.antt fixes it.
#[tactic(auto, using(theory::proofs::Checks::declining, crate::proofs::Answers::distance_pair, crate::proofs::Answers::distance_small), unfolding(crate::specs::Distance::distance_answer))]
pub fn distance(weights: Weights, shape: Shape, node: u16, target: u16) -> u16
    ensures value { result ≡ distance_answer weights shape node target }
    ensures upper_bound { result ≤ 360 }
{
    if weights.check().is_err() {
        return 0;
    }
    if !are_pair(shape, node, target) {
        return 0;
    }
    distance_at(weights, shape, coords(shape, node), coords(shape, target))
}
