// What is known of an accepted plan while its routes are planned.
ghost use Rattle.std.specs.Prelude.{◌≡◌, length};
ghost use Rattle.plan.specs.Layout.{weights_of};
ghost use Rattle.planner.specs.Known.{Prepared};

use machine::leg::ByMode;
use shape::Shape;
use weights::Weights;

// Its weights, shape, losses and dead nodes, the masks of all targets, and a run that is empty or has room for the sets to all nodes.
#[derive(Clone, Copy)]
pub struct Known<'a> {
    pub plan: &'a [u8],
    pub weights: Weights,
    pub shape: Shape,
    pub losses: &'a [u16],
    pub dead: &'a [u8; 4096],
    pub targets: ByMode<&'a [u16; 4608]>,
    pub work: &'a [u16],
    ghost weighed: { weights ≡ weights_of plan.now },
    ghost prepared: { Prepared plan.now shape losses.now (length losses.now) dead.now targets.adaptive.now targets.deterministic.now work.now },
}
