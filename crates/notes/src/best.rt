// The note of a node by the least number of all vias.
ghost use Rattle.std.specs.Prelude.{◌≡◌, List, ℕ};
ghost use Rattle.notes.specs.Known.{note_of, NoteTo, Faring};

use machine::leg::ByMode;
use search::best::{UNCLEAR, best_via};
use weights::Ends;
use weights::distance::distance_at;

// By the least number, and the distance to the node.
fn note_of(number: u32, length: u16) -> u32
    ensures { result ≡ note_of number length }
{
    if UNCLEAR <= number {
        return UNCLEAR;
    }
    let value = number / 16384;
    let least = 4 * (length as u32);
    if value < least {
        return UNCLEAR;
    }
    4096 * (value - least) + number % 8192 / 2
}

// `from`: the nodes with a clear leg from the source. `to`: both sets to the node, from place `at` on.
pub fn best_note(ends: Ends, from: ByMode<&[u16; 256]>, to: &[u16], at: usize) -> u32
    ensures { (p : List ℕ) (S D : ℕ) → Faring p ends.weights ends.shape S D ends.a ends.t from.entry.adaptive.now from.entry.deterministic.now to.now at → NoteTo p S D result }
{
    note_of(
        best_via(ends, from, to, at),
        distance_at(ends.weights, ends.shape, ends.a, ends.t),
    )
}
