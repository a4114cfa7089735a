// Hops by coordinates: from the place `at` toward the place `to`. Defined for all coordinates, also for those outside the shape.
// A direction is a number and no enum: it is a byte of the directions that a walk is lent, any of 0 to 255 (`Packet::walk`).
ghost use Rattle.std.specs.Prelude.{◌≡◌, ◌+◌, ◌*◌, ◌%◌, ◌<◌};
ghost use Rattle.std.specs.Option.{unwrap_or};
ghost use Rattle.shape.specs.Shape.{axis_of};
ghost use Rattle.machine.specs.Number.{number_of};
ghost use Rattle.machine.specs.Hop.{dir_dim, dir_plus, dir_of, opposite, rule};
ghost use Rattle.shape.specs.Steps.{goes};
ghost use Rattle.machine.specs.ByCoords.{in_dim, hops_along, hops_at, link_at, moved_at, useful_at, toward_at, first_at, allowed_at};

use crate::leg::Mode;
use logic::{both, pick};
use shape::{Axis, Coords, Dim, Shape};

#[tactic(auto, unfolding(crate::specs::Hop::dir_dim))]
pub fn dim_of(dir: u8) -> Dim
    ensures { result ≡ dir_dim dir }
{
    if dir < 2 {
        Dim::X
    } else if dir < 4 {
        Dim::Y
    } else {
        Dim::Z
    }
}

// One of three values, by a direction's dimension. Chosen by values and not by branches, since a walk's directions cannot be foretold.
fn in_dim(dir: u8, x: u8, y: u8, z: u8) -> u8
    ensures { result ≡ in_dim dir x y z }
{
    let i = dir / 2;
    pick(i == 0, x, pick(i == 1, y, z))
}

pub fn is_plus(dir: u8) -> bool
    ensures { result ≡ dir_plus dir }
{
    dir % 2 == 0
}

// The direction back over the same link.
#[tactic(auto, unfolding(crate::specs::Hop::opposite))]
pub fn opposite(dir: u8) -> u8
    ensures { result ≡ opposite dir }
{
    if dir % 2 == 0 { dir + 1 } else { dir - 1 }
}

fn dir_of(d: Dim, plus: bool) -> u8
    ensures { result ≡ dir_of d plus }
{
    let way = 2 * (d as u8);
    pick(plus, way, way + 1)
}

// Whether a deterministic leg goes plus at half a ring, from the place p of its dimension: from an even one.
#[tactic(auto, unfolding(crate::specs::Hop::rule))]
fn half_ring_plus(p: u8) -> bool
    ensures { result ≡ rule p }
{
    p % 2 == 0
}

// Whether a deterministic leg goes plus from the place p of a dimension toward the place q.
#[tactic(auto, unfolding(shape::specs::Steps::goes))]
pub fn goes_plus(axis: Axis, p: u8, q: u8) -> bool
    ensures { result ≡ goes rule axis.len axis.ring p q }
{
    axis.goes_plus(p, q, half_ring_plus(p))
}

// The node number of coordinates, of any size: modulo 65,536.
#[tactic(auto, using(crate::proofs::Numbers::inner_product, crate::proofs::Numbers::outer_product), unfolding(crate::specs::Number::number_of))]
pub fn number_at(shape: Shape, c: Coords) -> u16
    ensures { result ≡ number_of shape c % 65536 }
{
    let a = shape.x as u32;
    let b = shape.y as u32;
    let x = c.x as u32;
    let y = c.y as u32;
    let z = c.z as u32;
    ((x + a * (y + b * z)) % 65536) as u16
}

// The hops from one place to another in a dimension.
pub fn hops_along(shape: Shape, at: Coords, to: Coords, d: Dim) -> u16
    ensures value { result ≡ hops_along shape at to d }
    ensures upper_bound { result < 256 }
{
    shape.axis(d).hops(at.coord(d), to.coord(d)) as u16
}

// The hops from one place to another.
#[tactic(auto, unfolding(crate::specs::ByCoords::hops_at))]
pub fn hops_at(shape: Shape, at: Coords, to: Coords) -> u16
    ensures { result ≡ hops_at shape at to }
{
    let x = hops_along(shape, at, to, Dim::X);
    let y = hops_along(shape, at, to, Dim::Y);
    let z = hops_along(shape, at, to, Dim::Z);
    x + y + z
}

// Whether a link leaves that place in a direction.
pub fn link_at(shape: Shape, at: Coords, dir: u8) -> bool
    ensures { result ≡ link_at shape at dir }
{
    let d = dim_of(dir);
    let link = shape.axis(d).has_link(at.coord(d), is_plus(dir));
    both(dir <= 5, link)
}

// The dimension of a direction.
fn axis_of(shape: Shape, dir: u8) -> Axis
    ensures { result ≡ axis_of shape (dir_dim dir) }
{
    let x = shape.wrap % 2;
    let y = shape.wrap / 2 % 2;
    let z = shape.wrap / 4 % 2;
    Axis {
        len: in_dim(dir, shape.x, shape.y, shape.z),
        ring: in_dim(dir, x, y, z) == 1,
    }
}

// The place on the other side of that link.
pub fn moved_at(shape: Shape, at: Coords, dir: u8) -> Coords
    ensures { result ≡ moved_at shape at dir }
{
    let p = in_dim(dir, at.x, at.y, at.z);
    let next = axis_of(shape, dir).next_place(p, is_plus(dir));
    Coords {
        x: in_dim(dir, next, at.x, at.x),
        y: in_dim(dir, at.y, next, at.y),
        z: in_dim(dir, at.z, at.z, next),
    }
}

// Whether the hop in a direction is useful.
fn useful_at(shape: Shape, at: Coords, to: Coords, dir: u8) -> bool
    ensures { result ≡ useful_at shape at to dir }
{
    let p = in_dim(dir, at.x, at.y, at.z);
    let q = in_dim(dir, to.x, to.y, to.z);
    both(dir <= 5, axis_of(shape, dir).useful(p, q, is_plus(dir)))
}

fn toward_at(shape: Shape, at: Coords, to: Coords, d: Dim) -> u8
    ensures { result ≡ toward_at rule shape at to d }
{
    let plus = goes_plus(shape.axis(d), at.coord(d), to.coord(d));
    dir_of(d, plus)
}

// The direction of a deterministic leg; none where the coordinates are the same.
#[tactic(auto, unfolding(crate::specs::ByCoords::first_at))]
fn first_at(shape: Shape, at: Coords, to: Coords) -> Option<u8>
    ensures { unwrap_or result 6 ≡ first_at rule shape at to }
{
    if at.x != to.x {
        return Some(toward_at(shape, at, to, Dim::X));
    }
    if at.y != to.y {
        return Some(toward_at(shape, at, to, Dim::Y));
    }
    if at.z != to.z {
        return Some(toward_at(shape, at, to, Dim::Z));
    }
    None
}

// Whether a leg's mode allows the direction.
#[tactic(auto, unfolding(crate::specs::ByCoords::allowed_at))]
pub fn allowed_at(mode: Mode, shape: Shape, at: Coords, to: Coords, dir: u8) -> bool
    ensures { result ≡ allowed_at rule mode shape at to dir }
{
    match mode {
        Mode::Adaptive => useful_at(shape, at, to, dir),
        Mode::Deterministic => both(dir <= 5, first_at(shape, at, to) == Some(dir)),
    }
}
