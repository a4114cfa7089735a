// Marks in a table with a byte for each node, bit d for direction d.
ghost use Rattle.std.specs.Prelude.{◌≡◌, true, ◌-◌, ◌≤◌, ◌<◌};
ghost use Rattle.machine.specs.Node.{is_node};
ghost use Rattle.plan.specs.Checks.{fault_exists};
ghost use Rattle.dead.specs.Steps.{with_bit, mark_bit, mark_link, mark_from, mark_fault};

use machine::hop::opposite;
use machine::node::{has_link, neighbour};
use plan::{Fault, kinds};
use shape::Shape;

fn with_bit(mask: u8, dir: u8) -> u8
    requires { dir ≤ 5 }
    ensures { result ≡ with_bit mask dir }
{
    mask | 1 << dir
}

fn mark(masks: &mut [u8; 4096], node: u16, dir: u8)
    requires { (node < 4096) × (dir ≤ 5) }
    ensures { masks.new ≡ mark_bit masks.old node dir }
{
    let at = node as usize;
    masks[at] = with_bit(masks[at], dir);
}

// The link leaving the node in a direction, at both its ends.
fn mark_link(masks: &mut [u8; 4096], shape: Shape, node: u16, dir: u8)
    requires { (is_node shape node ≡ true) × (dir ≤ 5) }
    ensures { masks.new ≡ mark_link shape masks.old node dir }
{
    if has_link(shape, node, dir) {
        mark(masks, node, dir);
        mark(masks, neighbour(shape, node, dir), opposite(dir));
    }
}

// The links leaving the node in the directions from `first` to below `last`.
fn mark_links(masks: &mut [u8; 4096], shape: Shape, node: u16, first: u8, last: u8)
    requires { (is_node shape node ≡ true) × (first ≤ last) × (last ≤ 6) }
    ensures { masks.new ≡ mark_from shape masks.old node first (last - first) }
{
    for dir in first..last {
        mark_link(masks, shape, node, dir);
    }
}

// The links that a fault makes dead.
pub fn mark_fault(masks: &mut [u8; 4096], shape: Shape, f: Fault)
    requires { fault_exists shape f ≡ true }
    ensures { masks.new ≡ mark_fault shape masks.old f }
{
    if kinds::is_node(f.kind) {
        mark_links(masks, shape, f.node, 0, 6);
    } else {
        let dir = kinds::dir(f.kind);
        mark_links(masks, shape, f.node, dir, dir + 1);
    }
}
