// Tables in arrays that are lent. A call that returns an array lays it out once more in its caller's frame, where what is known of a plan stays to the end.
ghost use Rattle.std.specs.Prelude.{◌≡◌, ℕ, get_or};
ghost use Rattle.plan.specs.Checks.{large};
ghost use Rattle.dead.specs.Dead.{bit_of, node_answer};
ghost use Rattle.masks.specs.End.{begins};
ghost use Rattle.masks.specs.Masks.{Masked};

use dead::dead_nodes;
use machine::leg::Mode;
use masks::end::End;
use masks::table::table;
use shape::Shape;

#[inline(never)]
pub fn put_dead(plan: &[u8], nodes: &mut [u8; 4096])
    ensures { (n : ℕ) → get_or nodes.new n 0 ≡ bit_of (node_answer large plan.now n) }
{
    *nodes = dead_nodes(plan);
}

#[inline(never)]
pub fn put_table(mode: Mode, end: End, shape: Shape, masks: &mut [u16; 4608])
    ensures { Masked mode (begins end) shape masks.new }
{
    *masks = table(mode, end, shape);
}
