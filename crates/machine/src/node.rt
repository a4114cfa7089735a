// Nodes by their numbers. Every call is total: where a check declines the shape, or a node does not exist, the answer is defined too.
// It is a number and no Option, since `count_answer`, `coords_answer`, `neighbour_answer` of specs/Node.antt fix it.
ghost use Rattle.std.specs.Prelude.{◌≡◌, ◌<◌};
ghost use Rattle.machine.specs.Node.{is_node, are_pair, count_answer, coords_answer, link_answer, neighbour_answer};

use crate::hop::{link_at, moved_at, number_at};
use crate::number::{coords_of, node_count};
use shape::{Coords, Shape};

// The number of nodes; 0 of a shape that a check declines.
#[tactic(auto, using(theory::proofs::Checks::declining, crate::proofs::Numbers::count_small))]
pub fn count(shape: Shape) -> u16
    ensures { result ≡ count_answer shape }
{
    if shape.check().is_ok() {
        node_count(shape) as u16
    } else {
        0
    }
}

// Whether there is such a node.
#[tactic(auto, using(theory::proofs::Checks::declining), unfolding(crate::specs::Node::is_node))]
pub fn is_node(shape: Shape, node: u16) -> bool
    ensures { result ≡ is_node shape node }
{
    shape.check().is_ok() && (node as u32) < node_count(shape)
}

// Whether there are both nodes.
#[tactic(auto, unfolding(crate::specs::Node::are_pair))]
pub fn are_pair(shape: Shape, node: u16, target: u16) -> bool
    ensures { result ≡ are_pair shape node target }
{
    is_node(shape, node) && is_node(shape, target)
}

// The coordinates of a node; all 0 where there is no such node.
#[tactic(auto, using(crate::proofs::Nodes::coords_node))]
pub fn coords(shape: Shape, node: u16) -> Coords
    ensures { result ≡ coords_answer shape node }
{
    if is_node(shape, node) {
        coords_of(shape, node)
    } else {
        Coords { x: 0, y: 0, z: 0 }
    }
}

// Whether a link leaves a node in a direction.
#[tactic(auto, using(crate::proofs::Nodes::coords_node, crate::proofs::ByCoords::link_at_law))]
pub fn has_link(shape: Shape, node: u16, dir: u8) -> bool
    ensures { result ≡ link_answer shape node dir }
{
    is_node(shape, node) && link_at(shape, coords_of(shape, node), dir)
}

// The node at the other end of that link; 0 where there is no such node.
#[tactic(auto, using(crate::proofs::Nodes::coords_node, crate::proofs::Nodes::neighbour_node))]
pub fn neighbour(shape: Shape, node: u16, dir: u8) -> u16
    ensures { result ≡ neighbour_answer shape node dir }
{
    if is_node(shape, node) {
        number_at(shape, moved_at(shape, coords_of(shape, node), dir))
    } else {
        0
    }
}
