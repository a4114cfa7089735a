// The boards of a run, one after the other.
ghost use Rattle.std.specs.Prelude.{◌≡◌, true, false, ◌*◌, ◌≤◌, ◌<◌, length, IfSome};
ghost use Rattle.machine.specs.declared.leg.Mode.TheVariants.{Adaptive, Deterministic};
ghost use Rattle.machine.specs.Number.{node_count};
ghost use Rattle.plan.specs.Layout.{shape_of};
ghost use Rattle.plan.specs.Checks.{large, plan_error};
ghost use Rattle.masks.specs.Masks.{Masked};
ghost use Rattle.planner.specs.Run.{RunMade};
ghost use Rattle.planner.specs.Known.{Filled, Work};
ghost use Rattle.planner.specs.Steps.{Boarded};

use crate::fill::fill;
use crate::known::Known;
use crate::listed::routes_from;
use crate::run::Run;
use crate::tables::{put_dead, put_table};
use losses::losses;
use machine::leg::{ByMode, Mode};
use machine::node::coords;
use masks::end::End;
use masks::table::gather;
use plan::layout::{shape_in, weights_in};
use route_value::put_made;
use routes::layout::SHEET_BYTES;

// The bytes of a board's sheet, none where it is dead; nothing where the sheet does not fit. `starts`: the masks of all sources.
fn write_board(
    known: &Known,
    starts: ByMode<&[u16; 4608]>,
    source: u16,
    out: &mut [u8],
) -> Option<usize>
    requires masked { (Masked Adaptive true known.now.shape starts.adaptive.now) × (Masked Deterministic true known.now.shape starts.deterministic.now) }
    requires source_bound { source < node_count (shape_of known.now.plan.now) }
    ensures size_in_bounds { IfSome result (λ size. size ≤ length out.old) }
    ensures boarded { Work known.now.plan.now known.now.work.now → Boarded known.now.plan.now source out.old result out.new }
{
    if known.dead[source as usize] != 0 {
        return Some(0);
    }
    let a = coords(known.shape, source);
    let adaptive = gather(starts.adaptive, a);
    let deterministic = gather(starts.deterministic, a);
    let masks = ByMode {
        adaptive: &adaptive,
        deterministic: &deterministic,
    };
    let mut bytes = [0u8; SHEET_BYTES];
    let entries = routes_from(known, source, a, masks, &mut bytes);
    put_made(source, entries, &mut bytes, out).ok()
}

// The run from a board on, where the run of words has the sets to all nodes.
fn boards_from(
    known: &Known,
    starts: ByMode<&[u16; 4608]>,
    from: u16,
    all: u16,
    out: &mut [u8],
) -> Run
    requires masked { (Masked Adaptive true known.now.shape starts.adaptive.now) × (Masked Deterministic true known.now.shape starts.deterministic.now) }
    requires all_value { (from ≤ all) × (all ≡ node_count (shape_of known.now.plan.now)) }
    ensures { Work known.now.plan.now known.now.work.now → RunMade known.now.plan.now from out.old result out.new }
{
    let mut size: usize = 0;
    for next in from..all {
        let Some(more) = write_board(known, starts, next, &mut out[size..]) else {
            return Run { size, next };
        };
        size += more;
    }
    Run { size, next: all }
}

// The same, by what is known of the plan.
fn boards_by(known: &Known, from: u16, all: u16, out: &mut [u8]) -> Run
    requires { (from ≤ all) × (all ≡ node_count (shape_of known.now.plan.now)) }
    ensures { Work known.now.plan.now known.now.work.now → RunMade known.now.plan.now from out.old result out.new }
{
    let mut adaptive = [0u16; 4608];
    put_table(Mode::Adaptive, End::Start, known.shape, &mut adaptive);
    let mut deterministic = [0u16; 4608];
    put_table(
        Mode::Deterministic,
        End::Start,
        known.shape,
        &mut deterministic,
    );
    let starts = ByMode {
        adaptive: &adaptive,
        deterministic: &deterministic,
    };
    boards_from(known, starts, from, all, out)
}

// The three calls below each make the tables that they lend: these cannot leave the frame that they lie in.

// The run from a board on, of an accepted plan with `all` boards, where `work` has the sets to all nodes.
pub fn more_boards<'a>(plan: &'a [u8], from: u16, all: u16, work: &'a [u16], out: &mut [u8]) -> Run
    requires { (plan_error large plan.now ≡ 0) × (all ≡ node_count (shape_of plan.now)) × (512 * all ≤ length work.now) × (from ≤ all) }
    ensures { Filled plan.now work.now → RunMade plan.now from out.old result out.new }
{
    let shape = shape_in(plan);
    let lost = losses(plan);
    let mut dead = [0u8; 4096];
    put_dead(plan, &mut dead);
    let mut adaptive = [0u16; 4608];
    put_table(Mode::Adaptive, End::Target, shape, &mut adaptive);
    let mut deterministic = [0u16; 4608];
    put_table(Mode::Deterministic, End::Target, shape, &mut deterministic);
    let targets = ByMode {
        adaptive: &adaptive,
        deterministic: &deterministic,
    };
    let known = Known {
        plan,
        weights: weights_in(plan),
        shape,
        losses: lost.as_slice(),
        dead: &dead,
        targets,
        work,
    };
    boards_by(&known, from, all, out)
}

// The sets to all nodes of such a plan.
pub fn fill_boards(plan: &[u8], all: u16, work: &mut [u16])
    requires { (plan_error large plan.now ≡ 0) × (all ≡ node_count (shape_of plan.now)) × (512 * all ≤ length work.old) }
    ensures { Filled plan.now work.new }
{
    let shape = shape_in(plan);
    let lost = losses(plan);
    let mut dead = [0u8; 4096];
    put_dead(plan, &mut dead);
    let mut adaptive = [0u16; 4608];
    put_table(Mode::Adaptive, End::Target, shape, &mut adaptive);
    let mut deterministic = [0u16; 4608];
    put_table(Mode::Deterministic, End::Target, shape, &mut deterministic);
    let targets = ByMode {
        adaptive: &adaptive,
        deterministic: &deterministic,
    };
    let known = Known {
        plan,
        weights: weights_in(plan),
        shape,
        losses: lost.as_slice(),
        dead: &dead,
        targets,
        work: &[],
    };
    fill(&known, all, work);
}

// A run whose sets are made first.
pub fn write_boards(plan: &[u8], from: u16, all: u16, work: &mut [u16], out: &mut [u8]) -> Run
    requires { (plan_error large plan.now ≡ 0) × (all ≡ node_count (shape_of plan.now)) × (512 * all ≤ length work.old) × (from ≤ all) }
    ensures { RunMade plan.now from out.old result out.new }
{
    let shape = shape_in(plan);
    let lost = losses(plan);
    let mut dead = [0u8; 4096];
    put_dead(plan, &mut dead);
    let mut adaptive = [0u16; 4608];
    put_table(Mode::Adaptive, End::Target, shape, &mut adaptive);
    let mut deterministic = [0u16; 4608];
    put_table(Mode::Deterministic, End::Target, shape, &mut deterministic);
    let targets = ByMode {
        adaptive: &adaptive,
        deterministic: &deterministic,
    };
    let known = Known {
        plan,
        weights: weights_in(plan),
        shape,
        losses: lost.as_slice(),
        dead: &dead,
        targets,
        work: &[],
    };
    fill(&known, all, work);
    let filled = Known {
        plan,
        weights: known.weights,
        shape,
        losses: lost.as_slice(),
        dead: &dead,
        targets,
        work,
    };
    boards_by(&filled, from, all, out)
}
