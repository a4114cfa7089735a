// A byte for each node: 1 where the node is dead.
ghost use Rattle.std.specs.Prelude.{◌≡◌, ℕ, ◌<◌, get_or};
ghost use Rattle.plan.specs.Checks.{large};
ghost use Rattle.dead.specs.Dead.{bit_of, node_answer};
ghost use Rattle.dead.specs.Steps.{mark_node};

use plan::layout::{count_in, fault_in};
use plan::{Fault, check, kinds};

fn mark_node(nodes: &mut [u8; 4096], f: Fault)
    requires { f.node < 4096 }
    ensures { nodes.new ≡ mark_node nodes.old f }
{
    if kinds::is_node(f.kind) {
        let at = f.node as usize;
        nodes[at] = 1;
    }
}

// Of an accepted plan; all 0 where a check declines the sheet. A loop like that of `dead_masks`: one for both would take a closure with a contract for two lines.
pub fn dead_nodes(sheet: &[u8]) -> [u8; 4096]
    ensures { (n : ℕ) → get_or result n 0 ≡ bit_of (node_answer large sheet.now n) }
{
    let mut nodes = [0u8; 4096];
    if check(sheet).is_err() {
        return nodes;
    }
    for i in (0..count_in(sheet)).rev() {
        mark_node(&mut nodes, fault_in(sheet, i));
    }
    nodes
}
