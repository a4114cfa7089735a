// Route sheets that are lent.
ghost use Rattle.std.specs.Prelude.{◌≡◌};
ghost use Rattle.sheet.specs.Output.{written, out_after};
ghost use Rattle.routes.specs.Checks.{sheet_error};
ghost use Rattle.route_value.specs.Writing.{rewritten, back_error};
ghost use Rattle.plan.specs.Checks.{large};
ghost use Rattle.choice.specs.Outcome.{told, told_number};
ghost use Rattle.choice.specs.Pair.{far_in};
ghost use Rattle.routes.specs.Layout.{source};
ghost use Rattle.routes.specs.Lookup.{part_start, part_length};
ghost use Rattle.routes.specs.Says.{says};
ghost use Rattle.conversion.specs.Converting.{converted, convert_error, lost_entry};
ghost use Rattle.nafthurm.specs.Forms.{written_for, converted_for, route_for, part_for};

use crate::forms::{ConvertedForm, PartForm, RouteForm, WrittenForm};
use conversion::convert;
use route_value::write_back;
use routes::lookup::entry_part;
use routes::route::route;
use sheet::output::number;

#[unsafe(no_mangle)]
pub extern "C" fn nafthurm_sheet_check(plan: &[u8], sheet: &[u8]) -> u8
    ensures { result ≡ sheet_error large plan.now sheet.now }
{
    number(routes::check(plan, sheet))
}

#[unsafe(no_mangle)]
pub extern "C" fn nafthurm_sheet_write_back(
    plan: &[u8],
    sheet: &[u8],
    out: &mut [u8],
) -> WrittenForm
    ensures value { result ≡ written_for (written (back_error large plan.now sheet.now out.old) (rewritten sheet.now)) }
    ensures number { result.number ≡ back_error large plan.now sheet.now out.old }
    ensures out_after { out.new ≡ out_after (back_error large plan.now sheet.now out.old) (rewritten sheet.now) out.old }
{
    write_back(plan, sheet, out).into()
}

#[unsafe(no_mangle)]
pub extern "C" fn nafthurm_convert(plan: &[u8], sheet: &[u8], out: &mut [u8]) -> ConvertedForm
    ensures value { result ≡ converted_for (written (convert_error large plan.now sheet.now out.old) (converted sheet.now)) (lost_entry large plan.now sheet.now) }
    ensures number { result.number ≡ convert_error large plan.now sheet.now out.old }
    ensures out_after { out.new ≡ out_after (convert_error large plan.now sheet.now out.old) (converted sheet.now) out.old }
{
    convert(plan, sheet, out).into()
}

// The part that routes::lookup gives, as numbers: C cannot be given a part by reference.
#[unsafe(no_mangle)]
pub extern "C" fn nafthurm_lookup(plan: &[u8], sheet: &[u8], destination: u16) -> PartForm
    ensures { result ≡ part_for (part_start large plan.now sheet.now destination) (part_length large plan.now sheet.now destination) }
{
    let part = entry_part(plan, sheet, destination);
    PartForm {
        start: part.start,
        size: part.size,
    }
}

#[unsafe(no_mangle)]
pub extern "C" fn nafthurm_lookup_route(plan: &[u8], sheet: &[u8], destination: u16) -> RouteForm
    ensures value { result ≡ route_for (told (far_in plan.now) (source sheet.now) (says large plan.now sheet.now destination)) }
    ensures number { result.number ≡ told_number (says large plan.now sheet.now destination) }
{
    route(plan, sheet, destination).into()
}
