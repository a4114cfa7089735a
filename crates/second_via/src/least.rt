// The least of an array's values over the nodes of a product of masks that are in two sets.
ghost use Rattle.std.specs.Prelude.{◌≡◌, ◌+◌, ◌*◌, ◌≤◌, ◌<◌, IfSome, unwrap_or, length};
ghost use Rattle.shape.specs.Shape.{shape_error};
ghost use Rattle.machine.specs.Number.{node_count};
ghost use Rattle.search.specs.FirstVia.{is_via};
ghost use Rattle.search.specs.RowNumber.{Lowers};
ghost use Rattle.second_via.specs.Least.{LeastAt};
ghost use Rattle.second_via.specs.Nodes.{key_of, RowKeys, PlaneKeys, SpaceKeys};

use crate::below::below;
use machine::hop::number_at;
use rows::product::Places;
use search::lowest::has_rows;
use shape::{Coords, Shape};

// One number for a value and its node, so that the least of them is the lowest node of the least value.
fn key(values: &[u32; 4096], node: u16) -> u64
    requires { node < 4096 }
    ensures { result ≡ key_of values.now node }
{
    values[node as usize] as u64 * 4096 + node as u64
}

// The places of a word that the dimension has. first: the number of the row's first node. What `reach` does row by row is like it, but fills an array: a
// generic of both would hand closures through three functions.
fn row(len: u8, word: u16, first: u16, values: &[u32; 4096], known: u64) -> u64
    requires { (len ≤ 16) × (first + len ≤ 4096) }
    ensures { Lowers known result (RowKeys len word first values.now) }
{
    let mut best = known;
    for x in below(word, len) {
        best = key(values, first + x as u16).min(best);
    }
    best
}

fn plane(
    shape: Shape,
    bx: u16,
    by: u16,
    from: &[u16; 256],
    to: &[u16],
    at: usize,
    values: &[u32; 4096],
    z: u8,
    known: u64,
) -> u64
    requires { (shape_error shape ≡ 0) × (at + 256 ≤ length to.now) × (z < shape.z) }
    ensures { Lowers known result (PlaneKeys shape bx by from.now to.now at values.now z) }
{
    let mut best = known;
    for y in below(by, shape.y) {
        let r = 16 * z as usize + y as usize;
        let first = number_at(shape, Coords { x: 0, y: y, z: z });
        best = row(shape.x, bx & from[r] & to[at + r], first, values, best);
    }
    best
}

fn space(
    shape: Shape,
    places: Places,
    from: &[u16; 256],
    to: &[u16],
    at: usize,
    values: &[u32; 4096],
    known: u64,
) -> u64
    requires { (shape_error shape ≡ 0) × (at + 256 ≤ length to.now) }
    ensures { Lowers known result (SpaceKeys shape places.x places.y places.z from.now to.now at values.now) }
{
    let mut best = known;
    for z in below(places.z, shape.z) {
        best = plane(shape, places.x, places.y, from, to, at, values, z, best);
    }
    best
}

// Only values below the bound.
pub fn least(
    shape: Shape,
    places: Places,
    from: &[u16; 256],
    to: &[u16],
    at: usize,
    values: &[u32; 4096],
    bound: u32,
) -> Option<u16>
    ensures node { IfSome result (λ v. v < 4096) }
    ensures first { LeastAt (node_count shape) (is_via shape places.x places.y places.z from.now to.now at) values.now bound (unwrap_or result 4096) }
{
    if shape.check().is_err() || !has_rows(to.len(), at, 256) {
        return None;
    }
    let known = bound as u64 * 4096;
    let found = space(shape, places, from, to, at, values, known);
    if known <= found {
        return None;
    }
    Some((found % 4096) as u16)
}
