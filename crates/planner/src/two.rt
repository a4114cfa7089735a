// Two nodes of an accepted plan, the first of them sound.
ghost use Rattle.std.specs.Prelude.{◌≡◌, false, length};
ghost use Rattle.plan.specs.Layout.{weights_of, faults_of};
ghost use Rattle.dead.specs.Dead.{dead_node};
ghost use Rattle.notes.specs.Known.{OfPlan, IsAt};

use weights::Ends;

// With the plan's losses, its weights and shape, and their coordinates.
#[derive(Clone, Copy)]
pub struct Pair<'a> {
    pub plan: &'a [u8],
    pub losses: &'a [u16],
    pub ends: Ends,
    pub source: u16,
    pub dest: u16,
    ghost weighed: { ends.weights ≡ weights_of plan.now },
    ghost of_plan: { OfPlan plan.now ends.shape losses.now (length losses.now) },
    ghost from: { IsAt plan.now source ends.a },
    ghost to: { IsAt plan.now dest ends.t },
    ghost alive: { dead_node (faults_of plan.now) source ≡ false },
}
