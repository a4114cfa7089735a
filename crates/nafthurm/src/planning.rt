// Planning: a pair, the sheet of a source, and the sheets of all.
ghost use Rattle.std.specs.Prelude.{◌≡◌, ℕ, false, length};
ghost use Rattle.sheet.specs.Output.{room_error, written, out_after};
ghost use Rattle.plan.specs.Checks.{large};
ghost use Rattle.choice.specs.Pair.{far_in, pair};
ghost use Rattle.choice.specs.Answer.{Refused};
ghost use Rattle.choice.specs.Outcome.{told};
ghost use Rattle.planned_sheet.specs.Sheet.{source_error, planned_sheet};
ghost use Rattle.planner.specs.Run.{run_answer, run_output, passes};
ghost use Rattle.nafthurm.specs.Forms.{written_for, planned_for, run_for, run_form_number};

use crate::forms::{PlannedForm, RunForm, WrittenForm};
use all_sheets::write_run;
use planner::pair::pair;
use planner::sheets::write_sheet;

#[unsafe(no_mangle)]
pub extern "C" fn nafthurm_pair(plan: &[u8], source: u16, destination: u16) -> PlannedForm
    ensures value { result ≡ planned_for (told (far_in plan.now) source (pair large plan.now source destination)) }
    ensures number { (n : ℕ) → pair large plan.now source destination ≡ Refused n → result.route.number ≡ n }
{
    pair(plan, source, destination).into()
}

#[unsafe(no_mangle)]
pub extern "C" fn nafthurm_write_sheet(plan: &[u8], source: u16, out: &mut [u8]) -> WrittenForm
    ensures value { result ≡ written_for (written (room_error (source_error large plan.now source) (planned_sheet large plan.now source) out.old) (planned_sheet large plan.now source)) }
    ensures number { result.number ≡ room_error (source_error large plan.now source) (planned_sheet large plan.now source) out.old }
    ensures out_after { out.new ≡ out_after (room_error (source_error large plan.now source) (planned_sheet large plan.now source) out.old) (planned_sheet large plan.now source) out.old }
{
    write_sheet(plan, source, out).into()
}

#[unsafe(no_mangle)]
pub extern "C" fn nafthurm_all_sheets(
    plan: &[u8],
    from: u16,
    work: &mut [u16],
    out: &mut [u8],
) -> RunForm
    ensures value { result ≡ run_for (run_answer plan.now from (length work.old) (length out.old)) }
    ensures number { result.number ≡ run_form_number plan.now from (length work.old) (length out.old) }
    ensures out_after { out.new ≡ run_output plan.now from (length work.old) out.old }
    ensures work_unchanged { passes plan.now from (length work.old) ≡ false → work.new ≡ work.old }
{
    write_run(plan, from, work, out).into()
}
