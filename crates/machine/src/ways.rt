// The hops left of a leg, direction by direction: what a walk carries along a leg in place of coordinates. Defined for all coordinates and all numbers.
ghost use Rattle.std.specs.Prelude.{true, false, ◌≡◌, ◌-◌};
ghost use Rattle.machine.specs.Hop.{rule};
ghost use Rattle.machine.specs.Ways.{way_along, ways_at, once_round, place_before, standing_at, none_before, in_turn, allowed_in, taken};

use crate::hop::{goes_plus, opposite};
use crate::leg::Mode;
use logic::{both, either, pick};
use shape::{Coords, Dim, Shape};

// For each direction the hops left in its dimension, if the leg may go that way there; else 0.
pub type Ways = [u8; 6];

#[derive(Clone, Copy)]
struct Sides {
    plus: u8,
    minus: u8,
}

fn along(mode: Mode, shape: Shape, at: Coords, to: Coords, d: Dim) -> Sides
    ensures { (result.plus ≡ way_along rule mode shape at to d true) × (result.minus ≡ way_along rule mode shape at to d false) }
{
    let axis = shape.axis(d);
    let p = at.coord(d);
    let q = to.coord(d);
    let hops = axis.hops(p, q);
    match mode {
        Mode::Adaptive => Sides {
            plus: pick(axis.useful(p, q, true), hops, 0),
            minus: pick(axis.useful(p, q, false), hops, 0),
        },
        Mode::Deterministic => {
            let plus = goes_plus(axis, p, q);
            Sides {
                plus: pick(plus, hops, 0),
                minus: pick(!plus, hops, 0),
            }
        }
    }
}

// The hops left of a leg in that mode, from one place to another.
#[tactic(auto, unfolding(crate::specs::Ways::ways_at))]
pub fn ways(mode: Mode, shape: Shape, at: Coords, to: Coords) -> Ways
    ensures { result ≡ ways_at rule mode shape at to }
{
    let x = along(mode, shape, at, to, Dim::X);
    let y = along(mode, shape, at, to, Dim::Y);
    let z = along(mode, shape, at, to, Dim::Z);
    [x.plus, x.minus, y.plus, y.minus, z.plus, z.minus]
}

// The place that was counted on past the end of a ring.
#[tactic(auto, unfolding(crate::specs::Ways::once_round))]
fn once_round(len: u16, place: u16) -> u16
    ensures { result ≡ once_round len place }
{
    if len <= place { place - len } else { place }
}

// The place from which that many hops going plus, or where there are none that many going minus, lead to q.
#[tactic(auto, unfolding(crate::specs::Ways::place_before))]
fn place_before(len: u8, q: u8, plus: u8, minus: u8) -> u8
    ensures { result ≡ place_before len q plus minus }
{
    let back = pick(plus == 0, minus, len.saturating_sub(plus)) as u16;
    let place = once_round(len as u16, (q as u16) + back);
    (place % 256) as u8
}

// The place from which the hops left lead to another.
#[tactic(auto, unfolding(crate::specs::Ways::standing_at))]
pub fn standing(shape: Shape, ways: &Ways, to: Coords) -> Coords
    ensures { result ≡ standing_at shape ways.now to }
{
    Coords {
        x: place_before(shape.x, to.x, ways[0], ways[1]),
        y: place_before(shape.y, to.y, ways[2], ways[3]),
        z: place_before(shape.z, to.z, ways[4], ways[5]),
    }
}

// No hop is left in a dimension before that of the direction.
#[tactic(auto, unfolding(crate::specs::Ways::none_before))]
fn none_before(ways: &Ways, dir: u8) -> bool
    ensures { result ≡ none_before ways.now dir }
{
    let x = both(ways[0] == 0, ways[1] == 0);
    let y = both(ways[2] == 0, ways[3] == 0);
    both(either(dir < 2, x), either(dir < 4, y))
}

#[tactic(auto, unfolding(crate::specs::Ways::in_turn))]
fn in_turn(mode: Mode, ways: &Ways, dir: u8) -> bool
    ensures { result ≡ in_turn mode ways.now dir }
{
    match mode {
        Mode::Adaptive => true,
        Mode::Deterministic => none_before(ways, dir),
    }
}

// Takes a hop off the hops left, if the leg allows it, and tells whether it does.
#[tactic(auto, using(crate::proofs::HopsLeft::opposite_below), unfolding(crate::specs::Ways::allowed_in, crate::specs::Ways::hop_taken))]
pub fn take(ways: &mut Ways, mode: Mode, dir: u8) -> bool
    ensures value { result ≡ allowed_in mode ways.old dir }
    ensures ways_after { ways.new ≡ taken mode ways.old dir }
{
    if 5 < dir {
        return false;
    }
    let left = ways[dir as usize];
    if left == 0 {
        return false;
    }
    if !in_turn(mode, ways, dir) {
        return false;
    }
    ways[opposite(dir) as usize] = 0;
    ways[dir as usize] = left - 1;
    true
}
