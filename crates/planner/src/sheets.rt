// Writing a route sheet by planning from a source: the plan's checks, 9, 10 (source only), 12.
ghost use Rattle.std.specs.Prelude.{◌≡◌, [], ◌≤◌, length};
ghost use Rattle.numbers.specs.Refusals.{answer_number};
ghost use Rattle.sheet.specs.Output.{room_error, written, out_after};
ghost use Rattle.plan.specs.Checks.{large};
ghost use Rattle.routes.specs.Layout.{most_bytes};
ghost use Rattle.planned_sheet.specs.Sheet.{source_error, planned_sheet};
ghost use Rattle.planner.specs.Known.{Listed};

use crate::errors::check_ends;
use crate::known::Known;
use crate::listed::routes_from;
use dead::{dead_nodes, is_dead_node};
use losses::losses;
use machine::leg::{ByMode, Mode};
use machine::node::{coords, is_node};
use masks::end::End;
use masks::table::{ends, table};
use numbers::Refusal;
use plan::check;
use plan::layout::{shape_in, weights_in};
use route_value::put_made;
use routes::layout::SHEET_BYTES;

// The plan's checks, then 9 and 10 of the source.
pub fn check_source(plan: &[u8], source: u16) -> Result<(), Refusal>
    ensures { answer_number result ≡ source_error large plan.now source }
{
    check(plan)?;
    check_ends(is_node(shape_in(plan), source), is_dead_node(plan, source))
}

// The entries of a sheet from a sound source, in their places of its bytes, by the losses: in fixed memory, with no set to any node kept.
fn planned(plan: &[u8], source: u16, bytes: &mut [u8]) -> u16
    requires source_value { source_error large plan.now source ≡ 0 }
    requires most_bytes_in_bounds { most_bytes ≤ length bytes.old }
    ensures { Listed plan.now [] source bytes.new result }
{
    let shape = shape_in(plan);
    let lost = losses(plan);
    let dead = dead_nodes(plan);
    let adaptive = table(Mode::Adaptive, End::Target, shape);
    let deterministic = table(Mode::Deterministic, End::Target, shape);
    let targets = ByMode {
        adaptive: &adaptive,
        deterministic: &deterministic,
    };
    let known = Known {
        plan,
        weights: weights_in(plan),
        shape,
        losses: lost.as_slice(),
        dead: &dead,
        targets,
        work: &[],
    };
    let a = coords(shape, source);
    let adaptive = ends(Mode::Adaptive, End::Start, shape, a);
    let deterministic = ends(Mode::Deterministic, End::Start, shape, a);
    let masks = ByMode {
        adaptive: &adaptive,
        deterministic: &deterministic,
    };
    routes_from(&known, source, a, masks, bytes)
}

pub fn write_sheet(plan: &[u8], source: u16, out: &mut [u8]) -> Result<usize, Refusal>
    ensures value { result ≡ written (room_error (source_error large plan.now source) (planned_sheet large plan.now source) out.old) (planned_sheet large plan.now source) }
    ensures number { answer_number result ≡ room_error (source_error large plan.now source) (planned_sheet large plan.now source) out.old }
    ensures out_after { out.new ≡ out_after (room_error (source_error large plan.now source) (planned_sheet large plan.now source) out.old) (planned_sheet large plan.now source) out.old }
{
    check_source(plan, source)?;
    let mut bytes = [0u8; SHEET_BYTES];
    let count = planned(plan, source, &mut bytes);
    put_made(source, count, &mut bytes, out)
}
