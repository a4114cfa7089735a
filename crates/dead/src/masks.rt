// A byte for each node: bit d is set where the link leaving the node in direction d is dead.
ghost use Rattle.std.specs.Prelude.{◌≡◌, ℕ, get_or};
ghost use Rattle.plan.specs.Checks.{large};
ghost use Rattle.dead.specs.Dead.{mask_answer};

use crate::marks::mark_fault;
use plan::check;
use plan::layout::{count_in, fault_in, shape_in};

// The masks of an accepted plan's nodes; 0 past them, and where a check declines the sheet. Each fault marks the few links it names.
pub fn dead_masks(sheet: &[u8]) -> [u8; 4096]
    ensures { (n : ℕ) → get_or result n 0 ≡ mask_answer large sheet.now n }
{
    let mut masks = [0u8; 4096];
    if check(sheet).is_err() {
        return masks;
    }
    let shape = shape_in(sheet);
    for i in (0..count_in(sheet)).rev() {
        mark_fault(&mut masks, shape, fault_in(sheet, i));
    }
    masks
}
