// Reading a route sheet: an accepted sheet as a value, or the cause for which it is declined.
ghost use Rattle.std.specs.Prelude.{◌≡◌, ◌≤◌};
ghost use Rattle.numbers.specs.Refusals.{answer_number};
ghost use Rattle.plan.specs.Checks.{large};
ghost use Rattle.routes.specs.Layout.{entry_count, most_entries};
ghost use Rattle.routes.specs.Checks.{sheet_error};
ghost use Rattle.route_value.specs.Reading.{entry_array, reading};

use numbers::Refusal;
use routes::layout::{MOST_ENTRIES, count_in, entry_in, source_in};
use routes::{Entry, check};

// The entries are the first `count` of the array: fixed memory, with no heap.
#[derive(Clone, Copy)]
pub struct Routes {
    pub source: u16,
    pub count: u16,
    pub entries: [Entry; MOST_ENTRIES],
}

// The entries of an accepted sheet, and zeros past them.
fn entries_in(sheet: &[u8]) -> [Entry; MOST_ENTRIES]
    requires { entry_count sheet.now ≤ most_entries }
    ensures { result ≡ entry_array sheet.now }
{
    let mut entries = [Entry {
        dest: 0,
        kind: 0,
        via: 0,
        second: 0,
    }; MOST_ENTRIES];
    for i in 0..count_in(sheet) {
        entries[i as usize] = entry_in(sheet, i);
    }
    entries
}

pub fn read(plan: &[u8], sheet: &[u8]) -> Result<Routes, Refusal>
    ensures value { result ≡ reading (sheet_error large plan.now sheet.now) sheet.now }
    ensures number { answer_number result ≡ sheet_error large plan.now sheet.now }
{
    check(plan, sheet)?;
    let routes = Routes {
        source: source_in(sheet),
        count: count_in(sheet),
        entries: entries_in(sheet),
    };
    Ok(routes)
}
