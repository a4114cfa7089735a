// What a fault names.
ghost use Rattle.std.specs.Prelude.{◌≡◌};
ghost use Rattle.dead.specs.Dead.{names_node, names_link, names};

use logic::{both, either};
use machine::hop::opposite;
use plan::{Fault, kinds};

// Whether the fault is that node.
pub fn names_node(f: Fault, node: u16) -> bool
    ensures { result ≡ names_node f node }
{
    both(kinds::is_node(f.kind), f.node == node)
}

fn names_link(f: Fault, node: u16, dir: u8, to: u16) -> bool
    ensures { result ≡ names_link f node dir to }
{
    let plus = kinds::dir(f.kind);
    let there = both(dir == plus, f.node == node);
    let back = both(dir == opposite(plus), f.node == to);
    both(kinds::is_link(f.kind), either(there, back))
}

// Whether the fault makes the link dead that leaves the node in a direction, to the node `to`.
pub fn names(f: Fault, node: u16, dir: u8, to: u16) -> bool
    ensures { result ≡ names f node dir to }
{
    let end = either(names_node(f, node), names_node(f, to));
    either(end, names_link(f, node, dir, to))
}
