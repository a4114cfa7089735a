// Writing a route sheet: from routes, and back from its bytes.
ghost use Rattle.std.specs.Prelude.{◌≡◌, ◌≤◌, length, take};
ghost use Rattle.numbers.specs.Refusals.{answer_number};
ghost use Rattle.plan.specs.Checks.{large};
ghost use Rattle.sheet.specs.Output.{written, out_after};
ghost use Rattle.route_value.specs.Writing.{sheet_of, write_error, rewritten, back_error};

use crate::encode::{encode, encode_again};
use crate::reading::Routes;
use numbers::Refusal;
use routes::check;
use routes::layout::{ENTRIES_AT, ENTRY_SIZE, MOST_ENTRIES, SHEET_BYTES, count_in};
use sheet::output::put_sheet;

// The sheet in the first `end` bytes.
fn write_front(plan: &[u8], bytes: &[u8], end: usize, out: &mut [u8]) -> Result<usize, Refusal>
    requires { end ≤ length bytes.now }
    ensures value { result ≡ written (write_error large plan.now (take end bytes.now) out.old) (take end bytes.now) }
    ensures number { answer_number result ≡ write_error large plan.now (take end bytes.now) out.old }
    ensures out_after { out.new ≡ out_after (write_error large plan.now (take end bytes.now) out.old) (take end bytes.now) out.old }
{
    let sheet = &bytes[..end];
    put_sheet(sheet, check(plan, sheet), out)
}

// The sheet of routes: what a check declines the sheet with, then 12.
pub fn write(plan: &[u8], routes: Routes, out: &mut [u8]) -> Result<usize, Refusal>
    ensures value { result ≡ written (write_error large plan.now (sheet_of routes) out.old) (sheet_of routes) }
    ensures number { answer_number result ≡ write_error large plan.now (sheet_of routes) out.old }
    ensures out_after { out.new ≡ out_after (write_error large plan.now (sheet_of routes) out.old) (sheet_of routes) out.old }
{
    let count = routes.count as usize;
    if MOST_ENTRIES < count {
        plan::check(plan)?;
        return Err(Refusal::WrongRouteSheet);
    }
    let mut bytes = [0u8; SHEET_BYTES];
    encode(routes, &mut bytes);
    write_front(plan, &bytes, ENTRIES_AT + ENTRY_SIZE * count, out)
}

// The sheet, of either version, in the format that is written: the plan's checks, 13, then 12.
pub fn write_back(plan: &[u8], sheet: &[u8], out: &mut [u8]) -> Result<usize, Refusal>
    ensures value { result ≡ written (back_error large plan.now sheet.now out.old) (rewritten sheet.now) }
    ensures number { answer_number result ≡ back_error large plan.now sheet.now out.old }
    ensures out_after { out.new ≡ out_after (back_error large plan.now sheet.now out.old) (rewritten sheet.now) out.old }
{
    check(plan, sheet)?;
    let size = ENTRIES_AT + ENTRY_SIZE * (count_in(sheet) as usize);
    if out.len() < size {
        return Err(Refusal::OutputShort);
    }
    encode_again(sheet, out);
    Ok(size)
}
