// The losses of a plan sheet.
ghost use Rattle.std.specs.Prelude.{length};
ghost use Rattle.losses.specs.OfPlan.{AreLosses};

use crate::list::Losses;
use crate::words::word_of;
use plan::check;
use plan::layout::{count_in, fault_in, shape_in};

// One for each fault of an accepted plan, in their order; none where a check declines the sheet.
pub fn losses(sheet: &[u8]) -> Losses
    ensures { AreLosses sheet.now result (length result) }
{
    let mut words = [0u16; 256];
    if check(sheet).is_err() {
        return Losses { words, count: 0 };
    }
    let shape = shape_in(sheet);
    let count = count_in(sheet);
    for i in 0..count {
        words[i as usize] = word_of(shape, fault_in(sheet, i));
    }
    Losses { words, count }
}
