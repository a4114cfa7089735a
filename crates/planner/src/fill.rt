// A workspace with both sets to every node, 512 rows a node.
ghost use Rattle.std.specs.Prelude.{◌≡◌, ◌*◌, ◌≤◌, length};
ghost use Rattle.machine.specs.Number.{node_count};
ghost use Rattle.plan.specs.Layout.{shape_of};
ghost use Rattle.planner.specs.Known.{Filled};

use crate::known::Known;
use machine::leg::ByMode;
use machine::node::coords;
use masks::table::gather;
use notes::sets_of::put_both;

// Of a plan with `all` nodes, by the masks of all targets.
pub fn fill(known: &Known, all: u16, work: &mut [u16])
    requires { (all ≡ node_count (shape_of known.now.plan.now)) × (512 * all ≤ length work.old) }
    ensures { Filled known.now.plan.now work.new }
{
    let Known {
        shape,
        losses,
        targets,
        ..
    } = *known;
    for node in 0..all {
        let c = coords(shape, node);
        let adaptive = gather(targets.adaptive, c);
        let deterministic = gather(targets.deterministic, c);
        let masks = ByMode {
            adaptive: &adaptive,
            deterministic: &deterministic,
        };
        put_both(losses, masks, work, 512 * node as usize);
    }
}
