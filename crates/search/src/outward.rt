// The places of a dimension, by their hops from one of them.
ghost use Rattle.std.specs.Prelude.{◌≡◌, ℕ, ◌≤◌, ◌<◌, get_or};
ghost use Rattle.search.specs.Outward.{hops_row};

use crate::marks::row_where;
use shape::Axis;
use std::array;

// Those at k hops, as the bits of a mask.
fn row_at(axis: Axis, p: u8, k: u8) -> u16
    requires { axis.len ≤ 16 }
    ensures { result ≡ hops_row axis.len axis.ring p k }
{
    row_where(axis.len, |c| axis.hops(p, c) == k)
}

// Those at each number of hops; nothing where the length is outside.
pub fn rows_by_hops(axis: Axis, p: u8) -> [u16; 16]
    ensures { axis.len ≤ 16 → (k : ℕ) → k < 16 → get_or result k 0 ≡ hops_row axis.len axis.ring p k }
{
    if 16 < axis.len {
        return [0u16; 16];
    }
    array::from_fn(|k| row_at(axis, p, k as u8))
}
