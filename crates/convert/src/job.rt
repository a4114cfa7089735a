// The job: every sheet of OLD to the file OUT.part, and then to OUT, if all can be converted.
ghost use Rattle.std.specs.Prelude.{◌≡◌, ◌≤◌, length};
ghost use Rattle.plan.specs.Checks.{large};
ghost use Rattle.conversion.specs.Converting.{keep_error, lost_entry};
ghost use Rattle.convert.specs.Tally.{tallied, tally_in};

use crate::reading::{SHEET_BYTES, is_ended, read_sheet};
use crate::tally::{Lost, Tally};
use conversion::convert;
use numbers::Refusal;
use plan_input::{PLAN_BYTES, check_plan};
use program::argument::PATH_BYTES;
use program::failure::Failure;
use program::file;
use program::part_file::PartFile;
use std::io::{Read, Write};
use std::ops::ControlFlow;
use std::rt::Files;
use text::part::front;

// Why the sheets are not converted: the job failed, or a sheet is declined.
#[derive(Clone, Copy)]
pub enum NotDone<'a> {
    Failed(Failure<'a>),
    Declined(Tally, Lost),
}

impl<'a> From<Failure<'a>> for NotDone<'a> {
    fn from(failure: Failure<'a>) -> Self {
        NotDone::Failed(failure)
    }
}

impl From<Refusal> for NotDone<'_> {
    fn from(refusal: Refusal) -> Self {
        NotDone::Failed(Failure::Refused(refusal))
    }
}

// The sheets with one more, or with the last: a sheet may follow, but behind a damaged one.
fn going(tally: Tally) -> ControlFlow<Tally, Tally>
    ensures { tally_in result ≡ tally }
{
    let lost = tally.lost;
    match lost {
        Some(Lost::Declined(_, Refusal::WrongRouteSheet)) => ControlFlow::Break(tally),
        _ => ControlFlow::Continue(tally),
    }
}

// The sheets with one more, or with the last, and how many of its bytes are to be written, if any.
#[derive(Clone, Copy)]
struct Counted {
    tally: ControlFlow<Tally, Tally>,
    size: Option<usize>,
}

// One sheet, with room for it. Nothing is written behind a refusal, since the file will not be kept.
fn convert_one(plan: &[u8], sheet: &[u8], out: &mut [u8], before: Tally) -> Counted
    requires { length sheet.now ≤ length out.old }
    ensures { tally_in result.tally ≡ tallied before sheet.now (keep_error large plan.now sheet.now) (lost_entry large plan.now sheet.now) }
{
    let converted = convert(plan, sheet, out);
    let written = converted.written;
    let tally = before.add(sheet, written, converted.entry);
    let size = match (written, tally.lost) {
        (Ok(size), None) => Some(size),
        _ => None,
    };
    Counted {
        tally: going(tally),
        size,
    }
}

// All sheets, with the same bytes; `None` where the file does not take all bytes. A proved loop has to end, and nothing says that the input does. So it counts
// its turns, up to a number that no run uses up.
fn convert_each(
    plan: &[u8],
    old: &mut impl Read,
    file: &mut impl Write,
    room: &mut [u8; SHEET_BYTES],
    out: &mut [u8; SHEET_BYTES],
) -> Option<Tally> {
    let mut tally = Tally::none();
    for _ in 0..u64::MAX {
        let sheet = read_sheet(old, room);
        if sheet.is_empty() {
            break;
        }
        let Counted { tally: now, size } = convert_one(plan, sheet, out, tally);
        if let Some(size) = size {
            file.write_all(front(out, size)).ok()?;
        }
        match now {
            ControlFlow::Continue(more) => tally = more,
            ControlFlow::Break(all) => return Some(all),
        }
    }
    Some(tally.ended())
}

// All sheets to the file. A read that failed is no end of OLD.
fn convert_all<'a>(
    plan: &[u8],
    old_file: &mut impl Read,
    file: &mut impl Write,
    old: &'a [u8],
    out: &'a [u8],
) -> Result<Tally, NotDone<'a>> {
    let mut room = [0u8; SHEET_BYTES];
    let mut converted = [0u8; SHEET_BYTES];
    let tally = convert_each(plan, old_file, file, &mut room, &mut converted).ok_or(
        Failure::CannotWrite(out),
    )?;
    if let Some(lost) = tally.lost {
        return Err(NotDone::Declined(tally, lost));
    }
    if !is_ended(old_file) {
        return Err(NotDone::Failed(Failure::CannotRead(old)));
    }
    Ok(tally)
}

// OUT is there only if every sheet was converted.
fn convert_file<'a, R: Files>(
    rt: &R,
    plan: &[u8],
    old: &'a [u8],
    out: &'a [u8],
) -> Result<Tally, NotDone<'a>> {
    let mut old_file = file::open(rt, old)?;
    let mut room = [0u8; PATH_BYTES];
    let mut part = PartFile::create(rt, out, &mut room)?;
    match convert_all(plan, &mut old_file, &mut part.file, old, out) {
        Ok(tally) => {
            part.finish(rt)?;
            Ok(tally)
        }
        Err(why) => {
            part.give_up(rt);
            Err(why)
        }
    }
}

// The plan sheet is the first `size` bytes of the buffer.
pub fn convert_sheets<'a>(
    rt: &impl Files,
    plan: &[u8; PLAN_BYTES],
    size: usize,
    old: &'a [u8],
    out: &'a [u8],
) -> Result<Tally, NotDone<'a>> {
    check_plan(plan, size)?;
    convert_file(rt, front(plan, size), old, out)
}
