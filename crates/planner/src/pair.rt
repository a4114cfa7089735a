// Planning a pair: the plan's checks, 9, 10, then the first clear choice, or 11.
ghost use Rattle.std.specs.Prelude.{◌≡◌, false, List, ℕ, length, ◌<◌, get_or};
ghost use Rattle.numbers.specs.Refusals.{answer_number};
ghost use Rattle.machine.specs.declared.leg.Mode.TheVariants.{Adaptive, Deterministic};
ghost use Rattle.choice.specs.Pair.{far_in, pair_error, pair};
ghost use Rattle.choice.specs.Answer.{Refused};
ghost use Rattle.choice.specs.Outcome.{told, outcome_number};
ghost use Rattle.plan.specs.Checks.{large};
ghost use Rattle.notes.specs.Known.{is_clear, FromSet};
ghost use Rattle.first_clear.specs.Known.{route_told, Near};
ghost use Rattle.planner.specs.Known.{Ends, Beside};

use crate::dest::{far_to, near_to};
use crate::errors::check_ends;
use crate::known::Known;
use crate::noting::notes_from;
use crate::source::Source;
use crate::target::Target;
use crate::two::Pair;
use choice::Outcome;
use dead::{dead_nodes, is_dead_node};
use logic::{both, either};
use losses::losses;
use machine::leg::{ByMode, Mode};
use machine::node::{coords, is_node};
use masks::end::End;
use masks::span::box_of;
use masks::table::{ends, table};
use notes::note::put_between;
use notes::sets_of::from_set;
use numbers::Refusal;
use packet::Route;
use plan::check;
use plan::layout::{shape_in, weights_in};
use rows::product::less;
use search::best::UNCLEAR;
use search::lowest::lowest;
use sets::leg::leg_clear;
use shape::{Coords, Shape};
use weights::distance::distance_at;

fn check_pair(plan: &[u8], source: u16, dest: u16) -> Result<(), Refusal>
    ensures { answer_number result ≡ pair_error large plan.now source dest }
{
    check(plan)?;
    let shape = shape_in(plan);
    let known = both(is_node(shape, source), is_node(shape, dest));
    let dead = either(is_dead_node(plan, source), is_dead_node(plan, dest));
    check_ends(known, dead)
}

// The nodes that do not lie between the two ends.
fn beside(shape: Shape, a: Coords, t: Coords) -> [u16; 256]
    ensures { (p : List ℕ) (S D : ℕ) → Ends p shape S D a t → Beside p S D result }
{
    let mut rows = [65535u16; 256];
    less(&mut rows, box_of(shape, a, t));
    rows
}

// A node's note. Not inlined, so that the notes are not copied on the stack.
#[inline(never)]
fn note_of(notes: &[u32; 4096], node: u16) -> u32
    requires { node < 4096 }
    ensures { result ≡ get_or notes.now node 0 }
{
    notes[node as usize]
}

// By the notes of the nodes between the ends: the steps on the shortest ways.
fn near_by_notes(target: &Target) -> Option<Outcome>
    requires work_len { length target.now.source.now.known.work.now ≡ 0 }
    requires direct { is_clear target.now.source.now.known.plan.now Adaptive target.now.source.now.node target.now.node ≡ false }
    ensures { Near target.now.source.now.known.plan.now target.now.source.now.node target.now.node result }
{
    let source = target.source;
    let skip = beside(source.known.shape, source.at, target.at);
    let mut notes = [UNCLEAR; 4096];
    let mut twos = [UNCLEAR; 4096];
    notes_from(source, &skip, &mut notes, &mut twos);
    let two = twos[target.node as usize];
    near_to(target, note_of(&notes, target.node), two)
}

// By the notes of all nodes: the last step. No direct leg is clear.
fn far_by_notes(target: &Target) -> Outcome
    requires work_len { length target.now.source.now.known.work.now ≡ 0 }
    requires direct { is_clear target.now.source.now.known.plan.now Adaptive target.now.source.now.node target.now.node ≡ false }
    requires blocked { is_clear target.now.source.now.known.plan.now Deterministic target.now.source.now.node target.now.node ≡ false }
    ensures { result ≡ route_told target.now.source.now.known.plan.now target.now.source.now.node target.now.node }
{
    let source = target.source;
    let mut notes = [UNCLEAR; 4096];
    let mut twos = [UNCLEAR; 4096];
    notes_from(source, source.clear.adaptive, &mut notes, &mut twos);
    let note = note_of(&notes, target.node);
    far_to(target, note, &notes)
}

fn by_notes(target: &Target) -> Outcome
    requires work_len { length target.now.source.now.known.work.now ≡ 0 }
    requires direct { is_clear target.now.source.now.known.plan.now Adaptive target.now.source.now.node target.now.node ≡ false }
    ensures { result ≡ route_told target.now.source.now.known.plan.now target.now.source.now.node target.now.node }
{
    if let Some(outcome) = near_by_notes(target) {
        return outcome;
    }
    far_by_notes(target)
}

// The direct leg is not clear and adaptive, nor are two legs by a via between the ends. `adaptive`: the nodes with a clear adaptive leg from the source.
fn further(pair: &Pair, adaptive: [u16; 256]) -> Outcome
    requires from_set { FromSet pair.now.plan.now Adaptive pair.now.source adaptive }
    requires direct { is_clear pair.now.plan.now Adaptive pair.now.source pair.now.dest ≡ false }
    ensures { result ≡ route_told pair.now.plan.now pair.now.source pair.now.dest }
{
    let Pair {
        plan,
        losses,
        ends,
        source,
        dest,
    } = *pair;
    let shape = ends.shape;
    let dead = dead_nodes(plan);
    let to_adaptive = table(Mode::Adaptive, End::Target, shape);
    let to_deterministic = table(Mode::Deterministic, End::Target, shape);
    let deterministic = from_set(Mode::Deterministic, shape, losses, ends.a);
    let targets = ByMode {
        adaptive: &to_adaptive,
        deterministic: &to_deterministic,
    };
    let known = Known {
        plan,
        weights: ends.weights,
        shape,
        losses,
        dead: &dead,
        targets,
        work: &[],
    };
    let clear = ByMode {
        adaptive: &adaptive,
        deterministic: &deterministic,
    };
    let source = Source {
        // A copy by reference: the borrow checker takes no move at this lifetime.
        known: *&known,
        node: source,
        at: ends.a,
        clear,
    };
    let target = Target {
        source: &source,
        node: dest,
        at: ends.t,
    };
    by_notes(&target)
}

// Between sound nodes. The direct leg is tried by itself first; what only a later step needs is made there.
fn route(pair: &Pair) -> Outcome
    ensures { result ≡ route_told pair.now.plan.now pair.now.source pair.now.dest }
{
    let losses = pair.losses;
    let shape = pair.ends.shape;
    let a = pair.ends.a;
    let t = pair.ends.t;
    let length = distance_at(pair.ends.weights, shape, a, t);
    if leg_clear(Mode::Adaptive, shape, losses, a, t) {
        return Outcome::Given(Route::Direct(Mode::Adaptive), length);
    }
    let from = from_set(Mode::Adaptive, shape, losses, a);
    let mut run = [0u16; 256];
    let masks = ends(Mode::Adaptive, End::Target, shape, t);
    put_between(shape, losses, a, t, &masks, &mut run, 0);
    if let Some(via) = lowest(shape, box_of(shape, a, t), &from, &run, 0) {
        return Outcome::Given(Route::Via(via, Mode::Adaptive, Mode::Adaptive), length);
    }
    further(pair, from)
}

pub fn pair(plan: &[u8], source: u16, dest: u16) -> Outcome
    ensures value { result ≡ told (far_in plan.now) source (pair large plan.now source dest) }
    ensures number { (n : ℕ) → pair large plan.now source dest ≡ Refused n → outcome_number result ≡ n }
{
    if let Err(refusal) = check_pair(plan, source, dest) {
        return Outcome::Refused(refusal);
    }
    let shape = shape_in(plan);
    let lost = losses(plan);
    let two = Pair {
        plan,
        losses: lost.as_slice(),
        ends: weights::Ends {
            weights: weights_in(plan),
            shape,
            a: coords(shape, source),
            t: coords(shape, dest),
        },
        source,
        dest,
    };
    route(&two)
}
