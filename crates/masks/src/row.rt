// The masks that others are made of: of the end `at`, for each other end.
ghost use Rattle.std.specs.Prelude.{◌≡◌, true, false, cond, ◌≤◌, ◌<◌};
ghost use Rattle.shape.specs.Steps.{goes};
ghost use Rattle.machine.specs.Hop.{rule};
ghost use Rattle.masks.specs.End.{begins};
ghost use Rattle.masks.specs.Ranges.{between_row, useful_row, ways_row};

use crate::end::End;
use crate::range::{arc, arcs, hops, ones, range};
use logic::pick;
use machine::hop::goes_plus;
use shape::axis::Axis;

fn ring_between(len: u8, c: u8, at: u8) -> u16
    requires { (len ≤ 16) × (c < len) × (at < len) }
    ensures { result ≡ between_row len true c at }
{
    let w = hops(len, at, c);
    let half = len / 2;
    let top = pick(w == 0, len, w + 1);
    arcs(len, at, w, half + 1, len - half, top)
}

fn open_between(len: u8, c: u8, at: u8) -> u16
    requires { (len ≤ 16) × (c < len) × (at < len) }
    ensures { result ≡ between_row len false c at }
{
    let up = range(c, pick(at <= c, len, 0));
    let down = range(0, pick(c <= at, c + 1, 0));
    up | down
}

// Those for which c lies between.
pub fn between_row(axis: Axis, c: u8, at: u8) -> u16
    requires { (axis.len ≤ 16) × (c < axis.len) × (at < axis.len) }
    ensures { result ≡ between_row axis.len axis.ring c at }
{
    if axis.ring {
        ring_between(axis.len, c, at)
    } else {
        open_between(axis.len, c, at)
    }
}

fn ring_useful(len: u8, c: u8, plus: bool) -> u16
    requires { (len ≤ 16) × (c < len) }
    ensures { result ≡ useful_row len true c plus }
{
    let half = len / 2;
    arc(len, c, pick(plus, 1, len - half), pick(plus, half + 1, len))
}

fn open_useful(len: u8, c: u8, plus: bool) -> u16
    requires { (len ≤ 16) × (c < len) }
    ensures { result ≡ useful_row len false c plus }
{
    range(pick(plus, c + 1, 0), pick(plus, len, c))
}

// Those toward which the hop from c, plus or minus, is useful.
pub fn useful_row(axis: Axis, c: u8, plus: bool) -> u16
    requires { (axis.len ≤ 16) × (c < axis.len) }
    ensures { result ≡ useful_row axis.len axis.ring c plus }
{
    if axis.ring {
        ring_useful(axis.len, c, plus)
    } else {
        open_useful(axis.len, c, plus)
    }
}

fn goes_end(end: End, axis: Axis, at: u8, x: u8) -> bool
    ensures { result ≡ goes rule axis.len axis.ring (cond (begins end) at x) (cond (begins end) x at) }
{
    match end {
        End::Start => goes_plus(axis, at, x),
        End::Target => goes_plus(axis, x, at),
    }
}

// Those for which a deterministic leg goes plus: each is asked.
pub fn ways_row(end: End, axis: Axis, at: u8) -> u16
    requires { axis.len ≤ 16 }
    ensures { result ≡ ways_row (begins end) axis.len axis.ring at }
{
    let mut row: u32 = 0;
    let mut bit: u32 = 1;
    for x in 0..axis.len {
        row += pick(goes_end(end, axis, at, x), bit, 0);
        bit *= 2;
    }
    row as u16
}
