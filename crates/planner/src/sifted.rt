// The losses that can lie on the shortest ways to the destinations of a row.
ghost use Rattle.std.specs.Prelude.{◌≡◌, ℕ, ◌+◌, ◌*◌, length};
ghost use Rattle.notes.specs.Known.{IsAt};
ghost use Rattle.planner.specs.Known.{NearRow};

use crate::source::Source;
use masks::span::box_of;
use masks::table::gather;
use sets::sift::sift;
use shape::Coords;

// Those of the row of t, at the front of `near`; their number. With sets to all nodes none are needed.
pub fn sift_row(source: &Source, t: Coords, near: &mut [u16; 256]) -> usize
    ensures near_row { let k = source.now.known in (D : ℕ) → IsAt k.plan.now D t → length near.old ≡ 256 → NearRow k.plan.now k.work.now source.now.node k.losses.now (length k.losses.now) near.new result (t.y + 16 * t.z) }
    ensures near_len { length near.new ≡ length near.old }
{
    let known = source.known;
    if !known.work.is_empty() {
        return 0;
    }
    let masks = gather(known.targets.adaptive, t);
    let between = box_of(known.shape, source.at, t);
    sift(between.y, between.z, &masks, known.losses, near)
}
