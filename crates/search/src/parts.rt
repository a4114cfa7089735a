// What the places of a dimension make of a length, by way of them.
ghost use Rattle.std.specs.Prelude.{◌≡◌, ℕ, ◌≤◌, ◌<◌, get_or};
ghost use Rattle.search.specs.PartOf.{part_of, LevelsOf};

use shape::Axis;

// Its hops.
pub fn part(axis: Axis, p: u8, q: u8, c: u8) -> u8
    requires { (axis.len ≤ 16) × (p < axis.len) × (q < axis.len) × (c < axis.len) }
    ensures { (result ≡ part_of axis.len axis.ring p q c) × (result ≤ 30) }
{
    axis.hops(p, c) + axis.hops(c, q)
}

// At k the places that make k hops.
pub fn levels(axis: Axis, p: u8, q: u8) -> [u16; 32]
    requires { (axis.len ≤ 16) × (p < axis.len) × (q < axis.len) }
    ensures { LevelsOf axis.len axis.ring p q result }
{
    let mut xs = [0u16; 32];
    let mut bit: u32 = 1;
    for x in 0..axis.len {
        xs[part(axis, p, q, x) as usize] += bit as u16;
        bit *= 2;
    }
    xs
}

// No part of a place is less.
pub fn least_part(ys: &[u8; 16], len: u8) -> u8
    requires { len ≤ 16 }
    ensures { (c : ℕ) → c < len → result ≤ get_or ys.now c 0 }
{
    let mut least: u8 = 255;
    for c in 0..len {
        least = least.min(ys[c as usize]);
    }
    least
}
