// A run of sheets: as many whole ones a call as the lent bytes take.
ghost use Rattle.std.specs.Prelude.{◌≡◌, ◌*◌};
ghost use Rattle.numbers.specs.Refusals.{answer_number};
ghost use Rattle.planner.specs.declared.run.RunRefusal.TheVariants.{Refused};
ghost use Rattle.planner.specs.Run.{run_error, run_number, RunWritten, SetsMade};
ghost use Rattle.planner.specs.Known.{Filled};
ghost use Rattle.planner.specs.Steps.{boards_for, ended};

use crate::boards::{fill_boards, more_boards, write_boards};
use crate::errors::check_ends;
use machine::node::{count, is_node};
use numbers::Refusal;
use plan::check;
use plan::layout::shape_in;

// The workspace that a plan's boards take.
pub const WORDS_A_BOARD: usize = 512;

// The bytes that were written, and the board to go on with: the plan's board count where no sheet is left.
#[derive(Clone, Copy)]
pub struct Run {
    pub size: usize,
    pub next: u16,
}

// Why a run is not made: a check declines it, or the workspace is too small.
#[derive(Clone, Copy, PartialEq, Eq)]
pub enum RunRefusal {
    Refused(Refusal),
    FewWords,
}

impl From<Refusal> for RunRefusal {
    ghost from_gives = { λ e r. r ≡ Refused e };

    fn from(refusal: Refusal) -> RunRefusal {
        RunRefusal::Refused(refusal)
    }
}

// The plan's checks, then 9 of the board.
fn check_run(plan: &[u8], from: u16) -> Result<(), Refusal>
    ensures { answer_number result ≡ run_error plan.now from }
{
    check(plan)?;
    check_ends(is_node(shape_in(plan), from), false)
}

fn words_for(all: u16) -> usize
    ensures { result ≡ 512 * all }
{
    WORDS_A_BOARD * (all as usize)
}

// How many boards the plan has, where no check declines a run from one of them on and so many words are enough.
fn boards_for(plan: &[u8], from: u16, words: usize) -> Result<u16, RunRefusal>
    ensures value { result ≡ boards_for plan.now from words }
    ensures number { run_number result ≡ run_error plan.now from }
{
    check_run(plan, from)?;
    let all = count(shape_in(plan));
    if words < words_for(all) {
        return Err(RunRefusal::FewWords);
    }
    Ok(all)
}

// 12 where nothing was written and a sheet is left.
fn ended(run: Run, all: u16) -> Result<Run, RunRefusal>
    ensures { result ≡ ended run all }
{
    if run.size == 0 && run.next < all {
        return Err(RunRefusal::Refused(Refusal::OutputShort));
    }
    Ok(run)
}

// The sets to all boards of a plan, in a workspace for them: whether no check declines the plan and the words are enough. Else the workspace is left.
pub fn make_sets(plan: &[u8], work: &mut [u16]) -> bool
    ensures { SetsMade plan.now work.old result work.new }
{
    if check(plan).is_err() {
        return false;
    }
    let all = count(shape_in(plan));
    if work.len() < words_for(all) {
        return false;
    }
    fill_boards(plan, all, work);
    true
}

// A run as `write_run` makes it, with the sets that `make_sets` made of this plan: they serve any number of runs.
pub fn write_more(plan: &[u8], from: u16, work: &[u16], out: &mut [u8]) -> Result<Run, RunRefusal>
    ensures { Filled plan.now work.now → RunWritten plan.now from work.now out.old result work.now out.new }
{
    let all = boards_for(plan, from, work.len())?;
    ended(more_boards(plan, from, all, work, out), all)
}

// The sheets of the sound boards from `from` on, one behind the other from the start of `out`, up to the first that does not fit. What `work` holds afterwards
// is left open.
pub fn write_run(
    plan: &[u8],
    from: u16,
    work: &mut [u16],
    out: &mut [u8],
) -> Result<Run, RunRefusal>
    ensures { RunWritten plan.now from work.old out.old result work.new out.new }
{
    let all = boards_for(plan, from, work.len())?;
    ended(write_boards(plan, from, all, work, out), all)
}
