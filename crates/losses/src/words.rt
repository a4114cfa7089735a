// A fault as a loss.
ghost use Rattle.std.specs.Prelude.{◌≡◌, true, ◌≤◌};
ghost use Rattle.plan.specs.Checks.{fault_exists};
ghost use Rattle.losses.specs.OfPlan.{kept_kind, word_of};

use machine::node::coords;
use plan::{Fault, kinds};
use shape::Shape;

fn kept_kind(kind: u8) -> u16
    ensures { (result ≡ kept_kind kind) × (result ≤ 9) }
{
    if kinds::is_node(kind) {
        9
    } else {
        6 + (kinds::dir(kind) as u16) / 2
    }
}

pub fn word_of(shape: Shape, f: Fault) -> u16
    requires { fault_exists shape f ≡ true }
    ensures { result ≡ word_of shape f }
{
    let c = coords(shape, f.node);
    (c.x as u16) + 16 * (c.y as u16) + 256 * (c.z as u16) + 4096 * kept_kind(f.kind)
}
