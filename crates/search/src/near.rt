// The places near the shortest ways between two nodes.
ghost use Rattle.std.specs.Prelude.{true, ◌≡◌, ◌≤◌, ◌<◌};
ghost use Rattle.search.specs.BestVia.{askable};
ghost use Rattle.search.specs.Near.{near_row, NearWays};

use crate::along::parts_along;
use crate::best::is_askable;
use crate::marks::row_where;
use rows::product::Places;
use shape::{Axis, Dim};
use weights::Ends;

fn near_along(weight: u8, axis: Axis, p: u8, q: u8, over: u16) -> u16
    requires { (weight ≤ 8) × (axis.len ≤ 16) × (p < axis.len) × (q < axis.len) }
    ensures { result ≡ near_row weight axis.len axis.ring p q over }
{
    let ways = parts_along(weight, axis, p, q);
    let limit = weight as u32 * axis.hops(p, q) as u32 + over as u32;
    row_where(axis.len, |c| (ways[c as usize] as u32) < limit)
}

fn asked(ends: Ends, over: u16) -> Places
    requires { askable ends.weights ends.shape ends.a ends.t 512 0 ≡ true }
    ensures { NearWays ends.weights ends.shape ends.a ends.t over result.x result.y result.z }
{
    let Ends {
        weights,
        shape,
        a,
        t,
    } = ends;
    Places {
        x: near_along(weights.x, shape.axis(Dim::X), a.x, t.x, over),
        y: near_along(weights.y, shape.axis(Dim::Y), a.y, t.y, over),
        z: near_along(weights.z, shape.axis(Dim::Z), a.z, t.z, over),
    }
}

// Those of the nodes by way of which the length is less than `over` above the distance; none where the question cannot be asked.
pub fn near(ends: Ends, over: u16) -> Places
    ensures { askable ends.weights ends.shape ends.a ends.t 512 0 ≡ true → NearWays ends.weights ends.shape ends.a ends.t over result.x result.y result.z }
{
    if is_askable(ends, 512, 0) {
        asked(ends, over)
    } else {
        Places { x: 0, y: 0, z: 0 }
    }
}
