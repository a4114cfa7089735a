// What the places of a dimension make of a length by way of them, of any numbers.
ghost use Rattle.std.specs.Prelude.{◌≤◌, ◌<◌};
ghost use Rattle.search.specs.PartOf.{PartsOf};

use crate::parts::part;
use shape::Axis;

// Of each place, by the dimension's weight; nothing where the weight, the length or a place is outside.
pub fn parts_along(weight: u8, axis: Axis, p: u8, q: u8) -> [u8; 16]
    ensures { weight ≤ 8 → axis.len ≤ 16 → p < axis.len → q < axis.len → PartsOf weight axis.len axis.ring p q result }
{
    let mut ys = [0u8; 16];
    if 8 < weight || 16 < axis.len || axis.len <= p || axis.len <= q {
        return ys;
    }
    for c in 0..axis.len {
        ys[c as usize] = weight * part(axis, p, q, c);
    }
    ys
}
