// The note of a node to which the direct adaptive leg is not clear.
ghost use Rattle.std.specs.Prelude.{List, ℕ, ◌≤◌, length};
ghost use Rattle.machine.specs.declared.leg.Mode.{Mode};
ghost use Rattle.machine.specs.declared.leg.Mode.TheVariants.{Adaptive};
ghost use Rattle.notes.specs.Known.{ToBetween, NoteTo, Between, BetweenMade, FarMasks, BySets, ByLosses};

use crate::best::best_note;
use crate::sets_of::{put_both, put_rows};
use crate::short::short_note;
use machine::leg::ByMode;
use masks::span::box_of;
use masks::table::gather;
use search::best::UNCLEAR;
use search::lowest::lowest;
use sets::clear::clear_in;
use shape::{Coords, Shape};
use weights::Ends;

// The nodes on the shortest ways with a clear leg to the node whose masks they are, from a place of a run on. `near`: losses that stand for all there.
pub fn put_between(
    shape: Shape,
    near: &[u16],
    a: Coords,
    t: Coords,
    masks: &[u16; 288],
    run: &mut [u16],
    at: usize,
)
    ensures { (p : List ℕ) (m : Mode) (S D : ℕ) → Between p m shape S D a t near.now (length near.now) masks.now run.old at → BetweenMade p m S D at run.old run.new }
{
    let set = clear_in(box_of(shape, a, t), masks, near);
    put_rows(run, at, &set);
}

// By the masks, where the set for adaptive legs stands at the front of `run`, no via in it will do, and neither direct leg is clear. That set stays.
fn far_by_masks(
    ends: Ends,
    losses: &[u16],
    near: &[u16],
    masks: ByMode<&[u16; 288]>,
    from: ByMode<&[u16; 256]>,
    run: &mut [u16],
) -> u32
    ensures { (p : List ℕ) (S D : ℕ) → FarMasks p ends.weights ends.shape losses.now (length losses.now) S D ends.a ends.t near.now (length near.now) masks.entry.adaptive.now masks.entry.deterministic.now from.entry.adaptive.now from.entry.deterministic.now run.old → NoteTo p S D result × ToBetween p Adaptive S D run.new 0 }
{
    let Ends { shape, a, t, .. } = ends;
    put_between(shape, near, a, t, masks.deterministic, run, 256);
    let short = short_note(shape, box_of(shape, a, t), from, run, 0);
    if short < UNCLEAR {
        return short;
    }
    put_both(losses, masks, run, 512);
    best_note(ends, from, run, 512)
}

// By the sets to all nodes. `straight`: the direct deterministic leg is clear.
pub fn note_by_sets(
    ends: Ends,
    work: &[u16],
    dest: u16,
    from: ByMode<&[u16; 256]>,
    straight: bool,
) -> u32
    ensures { (p : List ℕ) (S : ℕ) → BySets p ends.weights ends.shape work.now S dest ends.a ends.t from.entry.adaptive.now from.entry.deterministic.now straight → NoteTo p S dest result }
{
    let at = 512 * dest as usize;
    let places = box_of(ends.shape, ends.a, ends.t);
    if let Some(via) = lowest(ends.shape, places, from.adaptive, work, at) {
        return via as u32;
    }
    if straight {
        return UNCLEAR;
    }
    let short = short_note(ends.shape, places, from, work, at);
    if short < UNCLEAR {
        return short;
    }
    best_note(ends, from, work, at)
}

// By the losses, with the masks of all targets. At the front of `run`, which has 1,024 rows, the nodes on the shortest ways with a clear adaptive leg to the node are left.
pub fn note_by_losses(
    ends: Ends,
    losses: &[u16],
    near: &[u16],
    targets: ByMode<&[u16; 4608]>,
    from: ByMode<&[u16; 256]>,
    straight: bool,
    run: &mut [u16],
) -> u32
    ensures { (p : List ℕ) (S D : ℕ) → ByLosses p ends.weights ends.shape losses.now (length losses.now) near.now (length near.now) targets.entry.adaptive.now targets.entry.deterministic.now S D ends.a ends.t from.entry.adaptive.now from.entry.deterministic.now straight → 1024 ≤ length run.old → NoteTo p S D result × ToBetween p Adaptive S D run.new 0 }
{
    let Ends { shape, a, t, .. } = ends;
    let masks = gather(targets.adaptive, t);
    put_between(shape, near, a, t, &masks, run, 0);
    let places = box_of(shape, a, t);
    if let Some(via) = lowest(shape, places, from.adaptive, run, 0) {
        return via as u32;
    }
    if straight {
        return UNCLEAR;
    }
    let others = gather(targets.deterministic, t);
    let both = ByMode {
        adaptive: &masks,
        deterministic: &others,
    };
    far_by_masks(ends, losses, near, both, from, run)
}
