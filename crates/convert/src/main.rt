// Brings a file of version 1 route sheets over to version 2: `convert PLAN OLD OUT`. It says what it did, or what is wrong, in one line of standard output.
#![tactic(auto)]

mod job;
mod reading;
mod say;
mod tally;

use crate::job::NotDone;
use crate::tally::Tally;
use plan_input::PLAN_BYTES;
use program::argument::{self, PATH_BYTES};
use program::file::read_front;
use std::rt::Files;

// The plan sheet of a file, for the route sheets of another.
fn from_files<'a>(
    rt: &impl Files,
    plan: &'a [u8],
    old: &'a [u8],
    out: &'a [u8],
) -> Result<Tally, NotDone<'a>> {
    let mut sheet = [0u8; PLAN_BYTES];
    let size = read_front(rt, plan, &mut sheet)?;
    job::convert_sheets(rt, &sheet, size, old, out)
}

fn main(rt: HostRuntime) {
    let mut plan = [0u8; PATH_BYTES];
    let mut old = [0u8; PATH_BYTES];
    let mut out = [0u8; PATH_BYTES];
    let plan = argument::read(&rt, 1, &mut plan);
    let old = argument::read(&rt, 2, &mut old);
    let out = argument::read(&rt, 3, &mut out);
    match (plan, old, out, argument::is_there(&rt, 4)) {
        (Some(plan), Some(old), Some(out), false) => match from_files(&rt, plan, old, out) {
            Ok(tally) => say::done(&rt, tally),
            Err(NotDone::Failed(failure)) => program::say::failed(&rt, failure),
            Err(NotDone::Declined(tally, lost)) => say::declined(&rt, tally, lost),
        },
        _ => say::usage(&rt),
    }
}
