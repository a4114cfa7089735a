// The last step to a destination to which no direct leg is clear.
ghost use Rattle.std.specs.Prelude.{◌≡◌, List, ℕ, length};
ghost use Rattle.first_clear.specs.Known.{route_told, FarSets, FarLost};

use crate::far::{Far, far_outcome};
use choice::Outcome;
use choice_number::read::over;
use machine::leg::ByMode;
use masks::table::gather;
use notes::sets_of::put_part;
use search::near::near;
use weights::Ends;

// By the sets to all nodes.
pub fn far_by_sets(
    ends: Ends,
    work: &[u16],
    dest: u16,
    from: &[u16; 256],
    note: u32,
    notes: &[u32; 4096],
) -> Outcome
    ensures { (p : List ℕ) (S : ℕ) → FarSets p ends.weights ends.shape work.now S dest ends.a ends.t from.now note notes.now → result ≡ route_told p S dest }
{
    let far = Far {
        ends,
        places: near(ends, over(note)),
        from,
        note,
        to: work,
        at: 512 * dest as usize,
    };
    far_outcome(&far, notes)
}

// By the losses, with the masks of all targets.
pub fn far_by_losses(
    ends: Ends,
    losses: &[u16],
    targets: ByMode<&[u16; 4608]>,
    from: &[u16; 256],
    note: u32,
    notes: &[u32; 4096],
) -> Outcome
    ensures { (p : List ℕ) (S D : ℕ) → FarLost p ends.weights ends.shape losses.now (length losses.now) targets.entry.adaptive.now targets.entry.deterministic.now S D ends.a ends.t from.now note notes.now → result ≡ route_told p S D }
{
    let mut run = [0u16; 512];
    let masks = gather(targets.adaptive, ends.t);
    let others = gather(targets.deterministic, ends.t);
    let places = near(ends, over(note));
    let both = ByMode {
        adaptive: &masks,
        deterministic: &others,
    };
    put_part(places, losses, both, &mut run, 0);
    let far = Far {
        ends,
        places,
        from,
        note,
        to: &run,
        at: 0,
    };
    far_outcome(&far, notes)
}
