// The converter.
ghost use Rattle.std.specs.Prelude.{◌≡◌, ◌<◌, length};
ghost use Rattle.numbers.specs.Refusals.{answer_number};
ghost use Rattle.sheet.specs.Output.{room_error, written, out_after};
ghost use Rattle.plan.specs.Checks.{large};
ghost use Rattle.conversion.specs.Converting.{converted, convert_error, lost_entry};

use crate::judge::{NotConverted, judge};
use numbers::Refusal;
use routes::layout::SECOND_VERSION;
use sheet::output::put_sheet;
use sheet::put_byte;

// The bytes written, or the cause for which it is declined; and with 17 the number, from 0, of the first entry that cannot be kept, else 0. The entry stands
// beside the answer as `nafthurm_convert` gives it.
#[derive(Clone, Copy)]
pub struct Converted {
    pub written: Result<usize, Refusal>,
    pub entry: u16,
}

// The sheet with its version changed: 12.
fn put_converted(sheet: &[u8], out: &mut [u8]) -> Result<usize, Refusal>
    requires { 0 < length sheet.now }
    ensures value { result ≡ written (room_error 0 (converted sheet.now) out.old) (converted sheet.now) }
    ensures number { answer_number result ≡ room_error 0 (converted sheet.now) out.old }
    ensures out_after { out.new ≡ out_after (room_error 0 (converted sheet.now) out.old) (converted sheet.now) out.old }
{
    let size = put_sheet(sheet, Ok(()), out)?;
    put_byte(out, 0, SECOND_VERSION);
    Ok(size)
}

// The version 1 sheet as one of version 2: the plan's checks, 13, 17, then 12.
pub fn convert(plan: &[u8], sheet: &[u8], out: &mut [u8]) -> Converted
    ensures written_value { result.written ≡ written (convert_error large plan.now sheet.now out.old) (converted sheet.now) }
    ensures number { answer_number result.written ≡ convert_error large plan.now sheet.now out.old }
    ensures result_value { result.entry ≡ lost_entry large plan.now sheet.now }
    ensures out_after { out.new ≡ out_after (convert_error large plan.now sheet.now out.old) (converted sheet.now) out.old }
{
    match judge(plan, sheet) {
        Ok(()) => Converted {
            written: put_converted(sheet, out),
            entry: 0,
        },
        Err(NotConverted::Refused(refusal)) => Converted {
            written: Err(refusal),
            entry: 0,
        },
        Err(NotConverted::Lost(entry)) => Converted {
            written: Err(Refusal::EntryNotKept),
            entry,
        },
    }
}
