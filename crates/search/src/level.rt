// The least number of a via in one row.
ghost use Rattle.std.specs.Prelude.{◌≡◌, ℕ, ◌*◌, ◌≤◌, ◌<◌, IfSome, unwrap_or, get_or};
ghost use Rattle.rows.specs.Bits.{bit};
ghost use Rattle.search.specs.Number.{unclear, det_of};
ghost use Rattle.search.specs.RowNumber.{LevelOf, LeastPlace, RowHas, Lowers};

use crate::dets::det_at;
use machine::leg::ByMode;
use rows::next::next_set;

// The first level, from `least` on, that has a place of the set.
pub fn level(set: u16, xs: &[u16; 32], least: u8) -> Option<u8>
    ensures small { IfSome result (λ k. k < 32) }
    ensures first { LevelOf set xs.now least (unwrap_or result 32) }
{
    (least..32).find(|k| set & xs[*k as usize] != 0)
}

// The least of the places of a level: fewest deterministic legs, then the lowest place. a1, a2: the places whose first, second leg is clear in the
// adaptive mode.
fn of_level(set: u16, a1: u16, a2: u16) -> u32
    requires { set ≡ 0 → ⊥ }
    ensures { LeastPlace set a1 a2 result }
{
    let two = set & a1 & a2;
    if two != 0 {
        return 2 * next_set(two, 0) as u32;
    }
    let one = set & (a1 | a2);
    if one != 0 {
        let x = next_set(one, 0);
        return 16384 + 2 * x as u32 + det_at(a1, x);
    }
    32769 + 2 * next_set(set, 0) as u32
}

// What so many hops along X make of a length.
pub fn weighed(weight: u8, hops: u8) -> u32
    requires { weight ≤ 8 }
    ensures { (result ≡ weight * hops) × (result ≤ 2040) }
{
    weight as u32 * hops as u32
}

// weight: that of X. base: what the other dimensions make of the length. first: the number of the row's first node. out, back: the places whose first leg, whose
// second leg is clear.
pub fn row(
    weight: u8,
    xs: &[u16; 32],
    least: u8,
    base: u16,
    first: u16,
    out: ByMode<u16>,
    back: ByMode<u16>,
    best: u32,
) -> u32
    requires le_weight { ((1 ≤ weight) × (weight ≤ 8)) × (base ≤ 510) × (best ≤ unclear) }
    requires by_index { (k : ℕ) → k < least → get_or xs.now k 0 ≡ 0 }
    ensures { Lowers best result (RowHas weight xs.now base first out.adaptive out.deterministic back.adaptive back.deterministic) }
{
    let set = out.deterministic & back.deterministic;
    if set == 0 {
        return best;
    }
    let Some(k) = level(set, xs, least) else {
        return best;
    };
    let length = base as u32 + weighed(weight, k);
    let place = of_level(set & xs[k as usize], out.adaptive, back.adaptive);
    let number = length * 65536 + (8192 + 2 * first as u32) + place;
    number.min(best)
}
