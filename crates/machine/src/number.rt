// Node numbers and coordinates, with no division. Defined for all shapes and numbers, also for those that a check declines.
ghost use Rattle.std.specs.Prelude.{◌≡◌, ℕ, ◌+◌, ◌<◌};
ghost use Rattle.machine.specs.Number.{node_count};
ghost use Rattle.machine.specs.Division.{times, rest, Left, coords_by};

use shape::{Coords, Shape};

#[derive(Clone, Copy)]
struct Quotient {
    times: u8,
    rest: u32,
}

// The divisor taken away k times, where that goes.
#[tactic(auto, using(crate::proofs::Division::part_most, crate::proofs::Division::half_taken, crate::proofs::Division::half_kept))]
fn less_by(q: Quotient, k: u8, d: u16) -> Quotient
    requires { q.times + k < 16 }
    ensures { (n : ℕ) → Left n d (k + k) q.times q.rest → Left n d k result.times result.rest }
{
    let part = (k as u32) * (d as u32);
    if part <= q.rest {
        return Quotient {
            times: q.times + k,
            rest: q.rest - part,
        };
    }
    q
}

// Quotient and remainder of a number below 16 times the divisor, by four subtractions.
fn divide(n: u32, d: u16) -> Quotient
    ensures { (result.times ≡ times n d) × (result.rest ≡ rest n d) }
{
    let whole = Quotient { times: 0, rest: n };
    let eight = less_by(whole, 8, d);
    let four = less_by(eight, 4, d);
    let two = less_by(four, 2, d);
    less_by(two, 1, d)
}

// The number of nodes, also of a shape that a check declines.
#[tactic(auto, using(crate::proofs::Numbers::inner_product, crate::proofs::Numbers::count_product), unfolding(crate::specs::Number::node_count))]
pub fn node_count(shape: Shape) -> u32
    ensures { result ≡ node_count shape }
{
    let a = shape.x as u32;
    let b = shape.y as u32;
    let c = shape.z as u32;
    a * b * c
}

// The coordinates of a node that exists; of any other number those that the same subtractions give.
#[tactic(auto, using(crate::proofs::Numbers::inner_product), unfolding(crate::specs::Division::coords_by))]
pub fn coords_of(shape: Shape, node: u16) -> Coords
    ensures { result ≡ coords_by shape node }
{
    let a = shape.x as u16;
    let b = shape.y as u16;
    let plane = divide(node as u32, a * b);
    let row = divide(plane.rest, a);
    Coords {
        x: (row.rest % 256) as u8,
        y: row.times,
        z: plane.times,
    }
}
