// The places of a dimension, those between two of them, and the box of two nodes.
ghost use Rattle.std.specs.Prelude.{◌≡◌, true, false, ◌≤◌, ◌<◌};
ghost use Rattle.legs.specs.Between.{between};
ghost use Rattle.rows.specs.Bits.{row_of};
ghost use Rattle.masks.specs.Span.{full_mask, between_mask, box_of};

use crate::range::{arcs, hops, ones, range};
use logic::pick;
use rows::product::Places;
use shape::axis::Axis;
use shape::{Coords, Dim, Shape};

pub fn full(len: u8) -> u16
    ensures { result ≡ full_mask len }
{
    if len <= 16 { ones(len) as u16 } else { 0 }
}

fn ring_span(len: u8, p: u8, q: u8) -> u16
    requires { (len ≤ 16) × (p < len) × (q < len) }
    ensures { result ≡ row_of (λ c. between len true c p q) len }
{
    let u = hops(len, p, q);
    let half = len / 2;
    let top = pick(u <= half, u + 1, 1);
    let low = pick(len - half <= u, u, len);
    arcs(len, p, 0, top, low, len)
}

fn open_span(len: u8, p: u8, q: u8) -> u16
    requires { (len ≤ 16) × (p < len) × (q < len) }
    ensures { result ≡ row_of (λ c. between len false c p q) len }
{
    if p <= q {
        range(p, q + 1)
    } else {
        range(q, p + 1)
    }
}

// The places between p and q.
pub fn between_mask(axis: Axis, p: u8, q: u8) -> u16
    ensures { result ≡ between_mask axis.len axis.ring p q }
{
    if 16 < axis.len || axis.len <= p || axis.len <= q {
        return 0;
    }
    if axis.ring {
        ring_span(axis.len, p, q)
    } else {
        open_span(axis.len, p, q)
    }
}

// In each dimension the places between two nodes.
pub fn box_of(shape: Shape, a: Coords, t: Coords) -> Places
    ensures { result ≡ box_of shape a t }
{
    Places {
        x: between_mask(shape.axis(Dim::X), a.x, t.x),
        y: between_mask(shape.axis(Dim::Y), a.y, t.y),
        z: between_mask(shape.axis(Dim::Z), a.z, t.z),
    }
}
