// Writing a plan sheet from a plan's value.
ghost use Rattle.std.specs.Prelude.{◌≡◌};
ghost use Rattle.numbers.specs.Refusals.{answer_number};
ghost use Rattle.sheet.specs.Output.{written, out_after};
ghost use Rattle.plan.specs.Checks.{large};
ghost use Rattle.plan.specs.Writing.{write_error};
ghost use Rattle.plan_value.specs.Writing.{sheet_of};

use crate::encode::encoded;
use crate::reading::Plan;
use numbers::Refusal;
use plan::layout::{FAULT_SIZE, MOST_FAULTS, head_size, is_known};
use plan::write_back;

// The sheet of a plan: what a check declines the sheet with, then 12.
pub fn write(plan: Plan, out: &mut [u8]) -> Result<usize, Refusal>
    ensures value { result ≡ written (write_error large (sheet_of plan) out.old) (sheet_of plan) }
    ensures number { answer_number result ≡ write_error large (sheet_of plan) out.old }
    ensures out_after { out.new ≡ out_after (write_error large (sheet_of plan) out.old) (sheet_of plan) out.old }
{
    let version = plan.version;
    let count = plan.count;
    if !is_known(version) {
        return Err(Refusal::PlanVersionUnknown);
    }
    if MOST_FAULTS < count {
        return Err(Refusal::ManyFaults);
    }
    let bytes = encoded(plan);
    let end = head_size(version) + FAULT_SIZE * (count as usize);
    write_back(&bytes[..end], out)
}
