// Writing a plan sheet back from its bytes.
ghost use Rattle.std.specs.Prelude.{◌≡◌};
ghost use Rattle.numbers.specs.Refusals.{answer_number};
ghost use Rattle.sheet.specs.Output.{written, out_after};
ghost use Rattle.plan.specs.Checks.{large};
ghost use Rattle.plan.specs.Writing.{write_error};

use crate::checks::check;
use numbers::Refusal;
use sheet::output::put_sheet;

// The sheet as it is: its checks, then 12.
pub fn write_back(sheet: &[u8], out: &mut [u8]) -> Result<usize, Refusal>
    ensures value { result ≡ written (write_error large sheet.now out.old) sheet.now }
    ensures number { answer_number result ≡ write_error large sheet.now out.old }
    ensures out_after { out.new ≡ out_after (write_error large sheet.now out.old) sheet.now out.old }
{
    put_sheet(sheet, check(sheet), out)
}
