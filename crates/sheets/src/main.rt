// Writes the route sheets of all sound boards of a plan to one file, in rising order of their sources: `sheets PLAN OUT`. It says what it did, or what is
// wrong, in one line of standard output.
#![tactic(auto)]

mod bar;
mod job;
mod say;
mod tally;
mod wait;

use crate::tally::Tally;
use plan_input::PLAN_BYTES;
use program::argument::{self, PATH_BYTES};
use program::failure::Failure;
use program::file::read_front;
use std::io::Stderr;
use std::rt::Files;
use std::time::CpuClock;

// The plan sheet of a file, to the file of its route sheets.
fn from_file<'a>(
    rt: &(impl Files + CpuClock),
    screen: Stderr,
    plan: &'a [u8],
    out: &'a [u8],
) -> Result<Tally, Failure<'a>> {
    let mut sheet = [0u8; PLAN_BYTES];
    let size = read_front(rt, plan, &mut sheet)?;
    job::write_sheets(rt, screen, &sheet, size, out)
}

fn main(rt: HostRuntime) {
    let mut plan = [0u8; PATH_BYTES];
    let mut out = [0u8; PATH_BYTES];
    let plan = argument::read(&rt, 1, &mut plan);
    let out = argument::read(&rt, 2, &mut out);
    match (plan, out, argument::is_there(&rt, 3)) {
        (Some(plan), Some(out), false) => match from_file(&rt, rt.stderr(), plan, out) {
            Ok(tally) => say::done(&rt, tally),
            Err(failure) => program::say::failed(&rt, failure),
        },
        _ => say::usage(&rt),
    }
}
