// A run of a plan that a program reads: the first `size` bytes of a buffer, read from an input that may be longer.
ghost use Rattle.std.specs.Prelude.{◌≡◌, List, ℕ, ◌<◌, length, take};
ghost use Rattle.sheet.specs.Input.{ReadInto};
ghost use Rattle.plan.specs.Checks.{large, plan_error};
ghost use Rattle.plan.specs.Reading.{is_plan};
ghost use Rattle.planner.specs.Known.{Filled};
ghost use Rattle.planner.specs.Run.{boards, run_of, RunWritten, SetsMade};

use plan_input::PLAN_BYTES;
use planner::run::{Run, RunRefusal, make_sets, write_more};
use text::part::front;

// A workspace for every plan: one of 4,096 boards.
pub const WORDS: usize = 2097152;

// Bytes for a run of a program: 102 of the longest sheets.
pub const ROOM: usize = 2097152;

// The sets to all boards, for the runs of the plan: made where no check declines it, since the words are enough for every plan. A size above PLAN_BYTES counts as PLAN_BYTES.
pub fn sets_of_input(plan: &[u8; PLAN_BYTES], size: usize, work: &mut [u16; WORDS]) -> bool
    ensures sets_made { SetsMade (take size plan.now) work.old result work.new }
    ensures value { result ≡ is_plan large (take size plan.now) }
{
    make_sets(front(plan, size), work)
}

// A run with them. It is written: the words are enough for every plan, and the bytes for every sheet.
pub fn run_of_input(
    plan: &[u8; PLAN_BYTES],
    size: usize,
    from: u16,
    work: &[u16; WORDS],
    out: &mut [u8; ROOM],
) -> Result<Run, RunRefusal>
    ensures run_written { Filled (take size plan.now) work.now → RunWritten (take size plan.now) from work.now out.old result work.now out.new }
    ensures by_index { (whole : List ℕ) → ReadInto whole plan.now size → Filled (take size plan.now) work.now → RunWritten whole from work.now out.old result work.now out.new }
    ensures value { Filled (take size plan.now) work.now → plan_error large (take size plan.now) ≡ 0 → from < boards (take size plan.now) → result ≡ Ok (run_of (take size plan.now) from (length out.old)) }
{
    write_more(front(plan, size), from, work, out)
}
