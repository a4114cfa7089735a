// A sound node of the plan, as a source.
ghost use Rattle.std.specs.Prelude.{length};
ghost use Rattle.planner.specs.Known.{Ready};

use crate::known::Known;
use machine::leg::ByMode;
use shape::Coords;

// The node, its coordinates, and the nodes with a clear leg from it.
#[derive(Clone, Copy)]
pub struct Source<'a> {
    pub known: Known<'a>,
    pub node: u16,
    pub at: Coords,
    pub clear: ByMode<&'a [u16; 256]>,
    ghost ready: { Ready known.plan.now known.shape known.losses.now (length known.losses.now) known.dead.now known.targets.adaptive.now known.targets.deterministic.now known.work.now node at clear.adaptive.now clear.deterministic.now },
}
