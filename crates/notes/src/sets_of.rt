// Sets of nodes with a clear leg from a node or to it, by the losses of a plan.
ghost use Rattle.std.specs.Prelude.{List, true, ℕ, ◌+◌, ◌≤◌, length};
ghost use Rattle.shape.specs.declared.shape.Shape.{Shape};
ghost use Rattle.shape.specs.declared.shape.Coords.{Coords};
ghost use Rattle.machine.specs.declared.leg.Mode.{Mode};
ghost use Rattle.masks.specs.Masks.{Ended};
ghost use Rattle.notes.specs.Known.{OfPlan, IsAt, FromSet, ToEnd, BothTo, PartTo};
ghost use Rattle.notes.specs.Rows.{Put, Elsewhere};

use machine::leg::{ByMode, Mode};
use masks::end::End;
use masks::table::ends;
use rows::product::Places;
use search::lowest::has_rows;
use sets::clear::clear_in;
use shape::{Coords, Shape};

// Every place of each dimension.
const ALL: Places = Places {
    x: 65535,
    y: 65535,
    z: 65535,
};

// The nodes with a clear leg from the one whose masks they are.
pub fn from_masks(losses: &[u16], masks: &[u16; 288]) -> [u16; 256]
    ensures { (p : List ℕ) (s : Shape) (m : Mode) (n : ℕ) (c : Coords) → OfPlan p s losses.now (length losses.now) → IsAt p n c → Ended m true s c masks.now → FromSet p m n result }
{
    clear_in(ALL, masks, losses)
}

pub fn from_set(mode: Mode, shape: Shape, losses: &[u16], c: Coords) -> [u16; 256]
    ensures { (p : List ℕ) (n : ℕ) → OfPlan p shape losses.now (length losses.now) → IsAt p n c → FromSet p mode n result }
{
    let masks = ends(mode, End::Start, shape, c);
    from_masks(losses, &masks)
}

// The rows of a set from a place of a run on, where the run has them.
pub fn put_rows(run: &mut [u16], at: usize, rows: &[u16; 256])
    ensures { at + 256 ≤ length run.old → Put at rows.now 256 run.old run.new }
{
    if !has_rows(run.len(), at, 256) {
        return;
    }
    // A loop, since the library's copy would make a board supply memmove.
    for i in 0..256 {
        run[at + i] = rows[i];
    }
}

// Both sets to the node whose masks they are, of the nodes in the product of the places, from a place of a run on, where the run has them.
pub fn put_part(
    places: Places,
    losses: &[u16],
    masks: ByMode<&[u16; 288]>,
    run: &mut [u16],
    at: usize,
)
    ensures by_index { (p : List ℕ) (s : Shape) (n : ℕ) (c : Coords) → ToEnd p s losses.now (length losses.now) n c masks.entry.adaptive.now masks.entry.deterministic.now → at + 512 ≤ length run.old → PartTo p n places.x places.y places.z run.new at }
    ensures elsewhere { at + 512 ≤ length run.old → Elsewhere at 512 run.old run.new }
{
    if !has_rows(run.len(), at, 512) {
        return;
    }
    let first = clear_in(places, masks.adaptive, losses);
    let second = clear_in(places, masks.deterministic, losses);
    put_rows(run, at, &first);
    put_rows(run, at + 256, &second);
}

// Of all nodes.
pub fn put_both(losses: &[u16], masks: ByMode<&[u16; 288]>, run: &mut [u16], at: usize)
    ensures by_index { (p : List ℕ) (s : Shape) (n : ℕ) (c : Coords) → ToEnd p s losses.now (length losses.now) n c masks.entry.adaptive.now masks.entry.deterministic.now → at + 512 ≤ length run.old → BothTo p n run.new at }
    ensures elsewhere { at + 512 ≤ length run.old → Elsewhere at 512 run.old run.new }
{
    put_part(ALL, losses, masks, run, at);
}
