// The least number of all vias of a pair, in four sets of clear legs.
ghost use Rattle.std.specs.Prelude.{true, ◌≡◌, ℕ, ◌+◌, ◌*◌, ◌≤◌, ◌<◌, length, get_or};
ghost use Rattle.shape.specs.Shape.{shape_error};
ghost use Rattle.machine.specs.Number.{node_count, Inside};
ghost use Rattle.search.specs.Number.{unclear};
ghost use Rattle.search.specs.RowNumber.{Ready, RowHas, RowAt, PlaneHas, SpaceHas, Lowers};
ghost use Rattle.search.specs.BestVia.{within, askable, number_in, LeastOf};

use crate::along::parts_along;
use crate::level::{level, row, weighed};
use crate::lowest::has_rows;
use crate::parts::{least_part, levels};
use logic::both;
use machine::leg::ByMode;
use shape::{Coords, Dim, Shape};
use weights::Ends;

// Above every choice's number: a length that no choice has. A number and no Option: notes by it fill arrays of 4,096, as `store` of `second_via`, in fixed memory.
pub const UNCLEAR: u32 = 67108864;

// Four sets of clear legs, and what the places along X make of a length. weight: that of X. xs: at k the places that make k hops. least: no level below has a place.
#[derive(Clone, Copy)]
struct Sets<'a> {
    shape: Shape,
    weight: u8,
    xs: &'a [u16; 32],
    least: u8,
    from: ByMode<&'a [u16; 256]>,
    to: &'a [u16],
    at: usize,
    ghost ready: { Ready shape weight xs.now least to.now at },
}

// The number of a row's first node.
fn row_start(shape: Shape, y: u8, z: u8) -> u16
    requires { (shape_error shape ≡ 0) × (y < shape.y) × (z < shape.z) }
    ensures { result ≡ shape.x * (y + shape.y * z) }
{
    shape.x as u16 * (y as u16 + shape.y as u16 * z as u16)
}

impl Sets<'_> {
    // The row at y, z, unless its length alone is too much; part, more: what z and y make of the length.
    fn row(&self, part: u8, more: u8, y: u8, z: u8, best: u32) -> u32
        requires { (y < self.now.shape.y) × (z < self.now.shape.z) × (best ≤ unclear) }
        ensures { Lowers best result (RowAt self.now.shape self.now.weight self.now.xs.now (part + more) self.now.from.adaptive.now self.now.from.deterministic.now self.now.to.now self.now.at y z) }
    {
        let base = part as u16 + more as u16;
        if best <= (base as u32 + weighed(self.weight, self.least)) * 65536 {
            return best;
        }
        let first = row_start(self.shape, y, z);
        let r = 16 * z as usize + y as usize;
        let out = ByMode {
            adaptive: self.from.adaptive[r],
            deterministic: self.from.deterministic[r],
        };
        let back = ByMode {
            adaptive: self.to[self.at + r],
            deterministic: self.to[self.at + r + 256],
        };
        row(
            self.weight,
            self.xs,
            self.least,
            base,
            first,
            out,
            back,
            best,
        )
    }

    // All rows of a plane, unless its length alone is too much. low: what Y makes of a length at least.
    fn plane(&self, ys: &[u8; 16], low: u8, part: u8, z: u8, known: u32) -> u32
        requires by_index { (c : ℕ) → c < self.now.shape.y → low ≤ get_or ys.now c 0 }
        requires z_lt_z { (z < self.now.shape.z) × (known ≤ unclear) }
        ensures { Lowers known result (PlaneHas self.now.shape self.now.weight self.now.xs.now ys.now part self.now.from.adaptive.now self.now.from.deterministic.now self.now.to.now self.now.at self.now.shape.y z) }
    {
        let mut best = known;
        if best <= (part as u32 + low as u32 + weighed(self.weight, self.least)) * 65536 {
            return best;
        }
        for y in 0..self.shape.y {
            best = self.row(part, ys[y as usize], y, z, best);
        }
        best
    }

    fn planes(&self, ys: &[u8; 16], zs: &[u8; 16], low: u8, known: u32) -> u32
        requires by_index { (c : ℕ) → c < self.now.shape.y → low ≤ get_or ys.now c 0 }
        requires known_le_unclear { known ≤ unclear }
        ensures { Lowers known result (SpaceHas self.now.shape self.now.weight self.now.xs.now ys.now zs.now self.now.from.adaptive.now self.now.from.deterministic.now self.now.to.now self.now.at self.now.shape.z) }
    {
        let mut best = known;
        for z in 0..self.shape.z {
            best = self.plane(ys, low, zs[z as usize], z, best);
        }
        best
    }

    // The rows of the source and of the destination first: their length is the least, so that what they have bounds the rest.
    fn through(&self, a: Coords, t: Coords, ys: &[u8; 16], zs: &[u8; 16]) -> u32
        requires { (Inside self.now.shape a) × (Inside self.now.shape t) }
        ensures { Lowers unclear result (SpaceHas self.now.shape self.now.weight self.now.xs.now ys.now zs.now self.now.from.adaptive.now self.now.from.deterministic.now self.now.to.now self.now.at self.now.shape.z) }
    {
        let low = least_part(ys, self.shape.y);
        let one = self.row(zs[a.z as usize], ys[a.y as usize], a.y, a.z, UNCLEAR);
        let two = self.row(zs[t.z as usize], ys[t.y as usize], t.y, t.z, one);
        self.planes(ys, zs, low, two)
    }
}

fn is_within(shape: Shape, c: Coords) -> bool
    ensures { result ≡ within shape c }
{
    both(c.x < shape.x, both(c.y < shape.y, c.z < shape.z))
}

// No check declines the weights or the shape, it has both nodes, and a run of this length has both sets.
pub fn is_askable(ends: Ends, len: usize, at: usize) -> bool
    ensures { result ≡ askable ends.weights ends.shape ends.a ends.t len at }
{
    let inside = both(is_within(ends.shape, ends.a), is_within(ends.shape, ends.t));
    let sound = both(ends.weights.check().is_ok(), ends.shape.check().is_ok());
    both(sound, both(inside, has_rows(len, at, 512)))
}

fn asked(ends: Ends, from: ByMode<&[u16; 256]>, to: &[u16], at: usize) -> u32
    requires { askable ends.weights ends.shape ends.a ends.t (length to.now) at ≡ true }
    ensures { LeastOf (node_count ends.shape) (number_in ends.weights ends.shape ends.a ends.t from.entry.adaptive.now from.entry.deterministic.now to.now at) result }
{
    let Ends {
        weights,
        shape,
        a,
        t,
    } = ends;
    let xs = levels(shape.axis(Dim::X), a.x, t.x);
    let ys = parts_along(weights.y, shape.axis(Dim::Y), a.y, t.y);
    let zs = parts_along(weights.z, shape.axis(Dim::Z), a.z, t.z);
    let sets = Sets {
        shape,
        weight: weights.x,
        xs: &xs,
        least: level(65535, &xs, 0).unwrap_or(32),
        from,
        to,
        at,
    };
    sets.through(a, t, &ys, &zs)
}

// from: the nodes with a clear leg from a. From `at` on the run has those with a clear leg to t, adaptive, and behind them those with a clear deterministic one.
pub fn best_via(ends: Ends, from: ByMode<&[u16; 256]>, to: &[u16], at: usize) -> u32
    ensures { LeastOf (node_count ends.shape) (number_in ends.weights ends.shape ends.a ends.t from.entry.adaptive.now from.entry.deterministic.now to.now at) result }
{
    if is_askable(ends, to.len(), at) {
        asked(ends, from, to, at)
    } else {
        UNCLEAR
    }
}
