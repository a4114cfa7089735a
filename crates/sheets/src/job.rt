// The job: every sound board's sheet to the file OUT.part, and then to OUT.
ghost use Rattle.std.specs.Prelude.{◌≤◌, ◌<◌, take, IfSome};
ghost use Rattle.planner.specs.Known.{Filled};

use crate::tally::Tally;
use crate::wait::Waiting;
use all_sheets::{ROOM, WORDS, run_of_input, sets_of_input};
use machine::node::count;
use plan::layout::shape_in;
use plan_input::{PLAN_BYTES, check_plan};
use program::argument::PATH_BYTES;
use program::failure::Failure;
use program::part_file::PartFile;
use std::io::{Stderr, Write};
use std::rt::Files;
use std::time::CpuClock;
use text::part::front;

// What was written, and the board to go on with.
#[derive(Clone, Copy)]
struct Progress {
    tally: Tally,
    next: u16,
}

// A plan, the first `size` bytes of a buffer, and the sets to all its boards, which every run takes.
#[derive(Clone, Copy)]
struct Sets<'a> {
    plan: &'a [u8; PLAN_BYTES],
    size: usize,
    work: &'a [u16; WORDS],
    ghost filled: { Filled (take size plan.now) work.now },
}

impl Sets<'_> {
    // The next run; `None` where the file did not take all bytes. No run is refused: the plan is accepted, and a sheet fits.
    fn write_next(
        self,
        file: &mut impl Write,
        progress: &mut Progress,
        out: &mut [u8; ROOM],
    ) -> Option<()>
        ensures onward { progress.old.next ≤ progress.new.next }
        ensures written { IfSome result (λ _. progress.old.next < progress.new.next) }
    {
        let Progress { tally, next } = *progress;
        let Ok(run) = run_of_input(self.plan, self.size, next, self.work, out) else {
            return None;
        };
        let sheets = front(out, run.size);
        let written = file.write_all(sheets).ok();
        *progress = Progress {
            tally: tally.add_run(sheets),
            next: run.next,
        };
        written
    }

    // All runs, with the same bytes.
    fn write_runs(
        self,
        rt: &impl CpuClock,
        waiting: &mut Waiting,
        file: &mut impl Write,
        out: &mut [u8; ROOM],
    ) -> Option<Tally> {
        let plan = self.plan;
        let all = count(shape_in(front(plan, self.size)));
        let mut progress = Progress {
            tally: Tally::none(),
            next: 0,
        };
        while progress.next < all {
            let written = self.write_next(file, &mut progress, out);
            waiting.look(rt, progress.next, all);
            written?;
        }
        Some(progress.tally)
    }
}

// The sets are always made: the plan is accepted, and the words are enough for any.
fn write_all(
    rt: &impl CpuClock,
    screen: Stderr,
    plan: &[u8; PLAN_BYTES],
    size: usize,
    file: &mut impl Write,
) -> Option<Tally> {
    let mut work = [0u16; WORDS];
    if !sets_of_input(plan, size, &mut work) {
        return None;
    }
    let mut out = [0u8; ROOM];
    let sets = Sets {
        plan,
        size,
        work: &work,
    };
    let mut waiting = Waiting::begin(rt, screen);
    let written = sets.write_runs(rt, &mut waiting, file, &mut out);
    waiting.end();
    written
}

// The plan sheet is the first `size` bytes of the buffer. A bar may stand on the screen meanwhile.
pub fn write_sheets<'a, R: Files + CpuClock>(
    rt: &R,
    screen: Stderr,
    plan: &[u8; PLAN_BYTES],
    size: usize,
    out: &'a [u8],
) -> Result<Tally, Failure<'a>> {
    check_plan(plan, size)?;
    let mut room = [0u8; PATH_BYTES];
    let mut part = PartFile::create(rt, out, &mut room)?;
    match write_all(rt, screen, plan, size, &mut part.file) {
        Some(tally) => part.finish(rt).map(|()| tally),
        None => {
            part.give_up(rt);
            Err(Failure::CannotWrite(out))
        }
    }
}
