// What planning answers for every destination of a source.
ghost use Rattle.std.specs.Prelude.{◌≡◌, false, ℕ, ◌<◌, get_or};
ghost use Rattle.machine.specs.Number.{node_count};
ghost use Rattle.plan.specs.Layout.{shape_of, faults_of};
ghost use Rattle.plan.specs.Checks.{large};
ghost use Rattle.dead.specs.Dead.{dead_node};
ghost use Rattle.choice.specs.Answer.{Refused};
ghost use Rattle.choice.specs.Outcome.{outcome_number};
ghost use Rattle.choice.specs.Pair.{pair};
ghost use Rattle.planned_sheet.specs.Sheet.{source_error};
ghost use Rattle.notes.specs.Known.{IsAt};
ghost use Rattle.first_clear.specs.Known.{Noted};
ghost use Rattle.planner.specs.Known.{Work, Twos};
ghost use Rattle.planner.specs.Outcomes.{no_outcome, outcome_at};

use crate::dest::outcome_to;
use crate::known::Known;
use crate::noting::notes_from;
use crate::outside::{At, following};
use crate::sheets::check_source;
use crate::source::Source;
use crate::tables::{put_dead, put_table};
use crate::target::Target;
use choice::Outcome;
use losses::losses;
use machine::leg::{ByMode, Mode};
use machine::node::coords;
use masks::end::End;
use notes::sets_of::from_set;
use packet::Route;
use plan::layout::{shape_in, weights_in};
use search::best::UNCLEAR;
use shape::Coords;

// Each destination is planned once. Not inlined, so that the outcomes are not laid out on the stack once more.
#[inline(never)]
fn all_outcomes(source: &Source, notes: &[u32; 4096], twos: &[u32; 4096]) -> [Outcome; 4096]
    requires work { Work source.now.known.plan.now source.now.known.work.now }
    requires noted { Noted source.now.known.plan.now source.now.node notes.now × Twos source.now.known.plan.now source.now.node notes.now twos.now }
    ensures { (d : ℕ) → get_or result d no_outcome ≡ outcome_at large source.now.known.plan.now source.now.node d }
{
    let shape = source.known.shape;
    let mut outcomes = [Outcome::Given(Route::Direct(Mode::Adaptive), 0); 4096];
    let mut at = At {
        node: 0,
        x: 0,
        y: 0,
        z: 0,
    };
    // By places, and no `for` over numbers: the coordinates of a node are not divided out.
    while at.z < shape.z {
        let target = Target {
            source: &*source,
            node: at.node,
            at: Coords {
                x: at.x,
                y: at.y,
                z: at.z,
            },
        };
        let i = at.node as usize;
        outcomes[i] = outcome_to(&target, notes, twos);
        at = following(shape, at);
    }
    outcomes
}

// By what is known of the plan: the sets from the source.
fn outcomes_by(known: &Known, source: u16, a: Coords) -> [Outcome; 4096]
    requires at { IsAt known.now.plan.now source a }
    requires source_value { dead_node (faults_of known.now.plan.now) source ≡ false }
    requires work { Work known.now.plan.now known.now.work.now }
    ensures { (d : ℕ) → get_or result d no_outcome ≡ outcome_at large known.now.plan.now source d }
{
    let adaptive = from_set(Mode::Adaptive, known.shape, known.losses, a);
    let deterministic = from_set(Mode::Deterministic, known.shape, known.losses, a);
    let clear = ByMode {
        adaptive: &adaptive,
        deterministic: &deterministic,
    };
    let source = Source {
        known: *known,
        node: source,
        at: a,
        clear,
    };
    let mut notes = [UNCLEAR; 4096];
    let mut twos = [UNCLEAR; 4096];
    notes_from(&source, &adaptive, &mut notes, &mut twos);
    all_outcomes(&source, &notes, &twos)
}

// From a sound source, by the losses.
fn outcomes_from(plan: &[u8], source: u16) -> [Outcome; 4096]
    requires { source_error large plan.now source ≡ 0 }
    ensures { (d : ℕ) → get_or result d no_outcome ≡ outcome_at large plan.now source d }
{
    let shape = shape_in(plan);
    let lost = losses(plan);
    let mut dead = [0u8; 4096];
    put_dead(plan, &mut dead);
    let mut adaptive = [0u16; 4608];
    put_table(Mode::Adaptive, End::Target, shape, &mut adaptive);
    let mut deterministic = [0u16; 4608];
    put_table(Mode::Deterministic, End::Target, shape, &mut deterministic);
    let targets = ByMode {
        adaptive: &adaptive,
        deterministic: &deterministic,
    };
    let known = Known {
        plan,
        weights: weights_in(plan),
        shape,
        losses: lost.as_slice(),
        dead: &dead,
        targets,
        work: &[],
    };
    outcomes_by(&known, source, coords(shape, source))
}

// By the destination's number; nothing where a check declines the source, or past the nodes.
pub fn outcomes(plan: &[u8], source: u16) -> [Outcome; 4096]
    ensures value { (d : ℕ) → get_or result d no_outcome ≡ outcome_at large plan.now source d }
    ensures number { (d n : ℕ) → source_error large plan.now source ≡ 0 → d < node_count (shape_of plan.now) → pair large plan.now source d ≡ Refused n → outcome_number (get_or result d no_outcome) ≡ n }
{
    if check_source(plan, source).is_err() {
        return [Outcome::Given(Route::Direct(Mode::Adaptive), 0); 4096];
    }
    outcomes_from(plan, source)
}
