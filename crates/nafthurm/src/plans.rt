// Plan sheets.
ghost use Rattle.std.specs.Prelude.{◌≡◌};
ghost use Rattle.sheet.specs.Output.{written, out_after};
ghost use Rattle.plan.specs.Checks.{large, plan_error};
ghost use Rattle.plan.specs.Reading.{shape_answer, weights_answer};
ghost use Rattle.plan.specs.Writing.{write_error};
ghost use Rattle.dead.specs.Dead.{node_answer, link_answer};
ghost use Rattle.nafthurm.specs.Forms.{shape_for, weights_for, written_for};

use crate::forms::{ShapeForm, WeightsForm, WrittenForm};
use sheet::output::number;

#[unsafe(no_mangle)]
pub extern "C" fn nafthurm_plan_check(plan: &[u8]) -> u8
    ensures { result ≡ plan_error large plan.now }
{
    number(plan::check(plan))
}

#[unsafe(no_mangle)]
pub extern "C" fn nafthurm_plan_shape(plan: &[u8]) -> ShapeForm
    ensures { result ≡ shape_for (shape_answer large plan.now) }
{
    plan::shape_of(plan).into()
}

#[unsafe(no_mangle)]
pub extern "C" fn nafthurm_plan_weights(plan: &[u8]) -> WeightsForm
    ensures { result ≡ weights_for (weights_answer large plan.now) }
{
    plan::weights_of(plan).into()
}

#[unsafe(no_mangle)]
pub extern "C" fn nafthurm_dead_node(plan: &[u8], node: u16) -> bool
    ensures { result ≡ node_answer large plan.now node }
{
    dead::is_dead_node(plan, node)
}

#[unsafe(no_mangle)]
pub extern "C" fn nafthurm_dead_link(plan: &[u8], node: u16, direction: u8) -> bool
    ensures { result ≡ link_answer large plan.now node direction }
{
    dead::is_dead_link(plan, node, direction)
}

#[unsafe(no_mangle)]
pub extern "C" fn nafthurm_plan_write_back(plan: &[u8], out: &mut [u8]) -> WrittenForm
    ensures value { result ≡ written_for (written (write_error large plan.now out.old) plan.now) }
    ensures number { result.number ≡ write_error large plan.now out.old }
    ensures out_after { out.new ≡ out_after (write_error large plan.now out.old) plan.now out.old }
{
    plan::write_back(plan, out).into()
}
