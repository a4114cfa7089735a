// The lowest node of a product of masks that is in two sets.
ghost use Rattle.std.specs.Prelude.{◌≡◌, ◌+◌, ◌-◌, ◌*◌, ◌^◌, ◌≤◌, ◌<◌, IfSome, unwrap_or, length};
ghost use Rattle.shape.specs.Shape.{shape_error};
ghost use Rattle.machine.specs.Number.{node_count};
ghost use Rattle.search.specs.FirstVia.{has_rows, in_all, is_via, FirstOf};
ghost use Rattle.search.specs.Planes.{Clipped, InPlane};

use crate::listed::Listed;
use rows::next::next_set;
use rows::product::Places;
use shape::Shape;

// Whether a run of this length has n elements from a place on.
pub fn has_rows(len: usize, at: usize, n: u16) -> bool
    ensures { result ≡ has_rows len at n }
{
    let need = n as usize;
    if len < need {
        return false;
    }
    at <= len - need
}

// The places of a mask that a dimension has.
fn clip(len: u8, mask: u16) -> u16
    requires { len ≤ 16 }
    ensures { Clipped len mask result }
{
    let past = 1u32 << (len as u32);
    mask & ((past - 1) as u16)
}

// The first place along Y of a plane, whose rows begin at `base`, that `by` has and whose row has such a node.
fn in_plane(bx: u16, by: u16, base: usize, from: &[u16; 256], to: &[u16], at: usize) -> Option<u8>
    requires { (base ≤ 240) × (at + 256 ≤ length to.now) }
    ensures small { IfSome result (λ y. y < 16) }
    ensures first { InPlane bx by base from.now to.now at (unwrap_or result 16) }
{
    for y in Listed::new(by) {
        let r = base + y as usize;
        if bx & from[r] & to[at + r] != 0 {
            return Some(y);
        }
    }
    None
}

// The masks are places of the shape.
fn first_via(shape: Shape, places: Places, from: &[u16; 256], to: &[u16], at: usize) -> Option<u16>
    requires shape_value { shape_error shape ≡ 0 }
    requires at_in_bounds { at + 256 ≤ length to.now }
    requires bx_bound { (places.x < 2 ^ shape.x) × (places.y < 2 ^ shape.y) × (places.z < 2 ^ shape.z) }
    ensures node { IfSome result (λ v. v < 4096) }
    ensures first { FirstOf (node_count shape) (in_all shape places.x places.y places.z from.now to.now at) (unwrap_or result 4096) }
{
    for z in Listed::new(places.z) {
        let base = 16 * z as usize;
        if let Some(y) = in_plane(places.x, places.y, base, from, to, at) {
            let r = base + y as usize;
            let x = next_set(places.x & from[r] & to[at + r], 0);
            return Some(x as u16 + shape.x as u16 * (y as u16 + shape.y as u16 * z as u16));
        }
    }
    None
}

// `to` and `at`, and not a slice from there on: `in_set` and `is_via` name the place.
pub fn lowest(shape: Shape, places: Places, from: &[u16; 256], to: &[u16], at: usize) -> Option<u16>
    ensures node { IfSome result (λ v. v < 4096) }
    ensures first { FirstOf (node_count shape) (is_via shape places.x places.y places.z from.now to.now at) (unwrap_or result 4096) }
{
    if shape.check().is_err() || !has_rows(to.len(), at, 256) {
        return None;
    }
    let inside = Places {
        x: clip(shape.x, places.x),
        y: clip(shape.y, places.y),
        z: clip(shape.z, places.z),
    };
    first_via(shape, inside, from, to, at)
}
