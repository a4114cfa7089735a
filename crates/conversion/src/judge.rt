// What declines a conversion, but for the room: the plan's checks, 13, 17.
ghost use Rattle.std.specs.Prelude.{true, ◌≡◌};
ghost use Rattle.plan.specs.Checks.{large};
ghost use Rattle.machine.specs.Node.{is_node};
ghost use Rattle.routes.specs.Layout.{first, source, entry_in, entries_in};
ghost use Rattle.routes.specs.Checks.{head_good, entries_good, good_in};
ghost use Rattle.conversion.specs.declared.judge.NotConverted.TheVariants.{Refused};
ghost use Rattle.conversion.specs.Converting.{keep_error, lost_entry};
ghost use Rattle.conversion.specs.Steps.{judged_number, judged_entry, Judged};

use crate::keep::entry_kept;
use logic::both;
use machine::node::{coords, is_node};
use numbers::Refusal;
use plan::layout::shape_in;
use routes::Entry;
use routes::checks::{Origin, head_good};
use routes::layout::{FIRST_VERSION, count_in, entry_by, one_via, source_in};
use shape::Shape;

// Why a sheet is not converted: the cause for which it is declined; or, with 17, the number, from 0, of the first entry that cannot be kept.
#[derive(Clone, Copy)]
pub enum NotConverted {
    Refused(Refusal),
    Lost(u16),
}

impl From<Refusal> for NotConverted {
    ghost from_gives = { λ e r. r ≡ Refused e };

    fn from(refusal: Refusal) -> NotConverted {
        NotConverted::Refused(refusal)
    }
}

// The head of a sheet of version 1, and its entry number i.
fn old_head(sheet: &[u8]) -> bool
    ensures { result ≡ head_good first sheet.now }
{
    head_good(sheet, one_via(FIRST_VERSION))
}

fn old_entry(sheet: &[u8], i: u16) -> Entry
    ensures { result ≡ entry_in first sheet.now i }
{
    entry_by(sheet, one_via(FIRST_VERSION), i)
}

// The entries, in one pass. One that check 13 declines comes before one that cannot be kept.
fn judge_entries(sheet: &[u8], shape: Shape, source: u16) -> Result<(), NotConverted>
    requires { is_node shape source ≡ true }
    ensures { Judged (entries_good shape source 0 (entries_in first sheet.now)) shape source sheet.now result }
{
    let origin = Origin { shape, source };
    let at = coords(shape, source);
    let mut lost = None;
    let mut least: u32 = 0;
    for i in 0..count_in(sheet) {
        let e = old_entry(sheet, i);
        if !origin.next_good(least, e) {
            return Err(NotConverted::Refused(Refusal::WrongRouteSheet));
        }
        if !entry_kept(shape, at, e) {
            lost = lost.or(Some(i));
        }
        least = (e.dest as u32) + 1;
    }
    match lost {
        None => Ok(()),
        Some(i) => Err(NotConverted::Lost(i)),
    }
}

fn judge_sheet(shape: Shape, sheet: &[u8]) -> Result<(), NotConverted>
    ensures { Judged (good_in first shape sheet.now) shape (source sheet.now) sheet.now result }
{
    let source = source_in(sheet);
    if !both(old_head(sheet), is_node(shape, source)) {
        return Err(NotConverted::Refused(Refusal::WrongRouteSheet));
    }
    judge_entries(sheet, shape, source)
}

pub fn judge(plan: &[u8], sheet: &[u8]) -> Result<(), NotConverted>
    ensures number { judged_number result ≡ keep_error large plan.now sheet.now }
    ensures entry { judged_entry result ≡ lost_entry large plan.now sheet.now }
{
    plan::check(plan)?;
    judge_sheet(shape_in(plan), sheet)
}
