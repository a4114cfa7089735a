// A plan sheet that a program reads: the first `size` bytes of a buffer, read from an input that may be longer.
#![tactic(auto)]

ghost use Rattle.std.specs.Prelude.{◌≡◌, List, ℕ, take};
ghost use Rattle.sheet.specs.Input.{ReadInto};
ghost use Rattle.numbers.specs.Refusals.{answer_number};
ghost use Rattle.plan.specs.Checks.{large, plan_error};

use numbers::Refusal;
use plan::check;
use text::part::front;

// One byte more than the longest plan sheet that is accepted, one of version 2 with 256 faults: of a longer input these bytes decide the checks.
pub const PLAN_BYTES: usize = 781;

// Buffer and size are two, since the contract says how the whole input was read into the buffer (`ReadInto`).
// The checks of the whole input. A size above PLAN_BYTES counts as PLAN_BYTES.
pub fn check_plan(plan: &[u8; PLAN_BYTES], size: usize) -> Result<(), Refusal>
    ensures value { answer_number result ≡ plan_error large (take size plan.now) }
    ensures by_index { (whole : List ℕ) → ReadInto whole plan.now size → answer_number result ≡ plan_error large whole }
{
    check(front(plan, size))
}
