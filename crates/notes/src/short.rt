// The note of a node where neither leg to it is clear at once, and no via on the shortest ways has two clear adaptive legs: the lowest via there with one
// deterministic leg, then with two.
ghost use Rattle.std.specs.Prelude.{◌≡◌, List, ℕ, ◌<◌, unwrap_or, IfSome};
ghost use Rattle.search.specs.Number.{unclear};
ghost use Rattle.notes.specs.Known.{lower, via_note, NoteTo, Short};

use machine::leg::ByMode;
use rows::product::Places;
use search::best::UNCLEAR;
use search::lowest::{has_rows, lowest};
use shape::Shape;

// The lower of two vias, either of which may be none.
fn lower_of(first: Option<u16>, second: Option<u16>) -> Option<u16>
    requires { IfSome first (λ v. v < 4096) × IfSome second (λ v. v < 4096) }
    ensures node { IfSome result (λ v. v < 4096) }
    ensures value { unwrap_or result 4096 ≡ lower (unwrap_or first 4096) (unwrap_or second 4096) }
{
    let (Some(v), Some(w)) = (first, second) else {
        return first.or(second);
    };
    Some(v.min(w))
}

// `dets`: how many of its legs are deterministic.
fn via_note(via: u16, dets: u8) -> u32
    requires { via < 4096 }
    ensures { result ≡ via_note via dets }
{
    4096 * (dets as u32) + (via as u32)
}

// The note is a number, `UNCLEAR` where there is none: `planner` keeps 4,096 of them in fixed memory. `places`: those between the two ends. `from`: the nodes with a clear leg from the source. `to`: both sets to the node, from place `at` on.
pub fn short_note(
    shape: Shape,
    places: Places,
    from: ByMode<&[u16; 256]>,
    to: &[u16],
    at: usize,
) -> u32
    ensures { (p : List ℕ) (S D : ℕ) → Short p shape S D places.x places.y places.z from.entry.adaptive.now from.entry.deterministic.now to.now at → result < unclear → NoteTo p S D result }
{
    if !has_rows(to.len(), at, 512) {
        return UNCLEAR;
    }
    let behind = at + 256;
    let first = lowest(shape, places, from.adaptive, to, behind);
    let second = lowest(shape, places, from.deterministic, to, at);
    if let Some(via) = lower_of(first, second) {
        return via_note(via, 1);
    }
    match lowest(shape, places, from.deterministic, to, behind) {
        Some(via) => via_note(via, 2),
        None => UNCLEAR,
    }
}
