// What planning answers for one destination.
ghost use Rattle.std.specs.Prelude.{◌≡◌, false, ◌≤◌, get_or};
ghost use Rattle.machine.specs.declared.leg.Mode.TheVariants.{Adaptive, Deterministic};
ghost use Rattle.plan.specs.Checks.{large};
ghost use Rattle.choice.specs.Outcome.{told};
ghost use Rattle.choice.specs.Pair.{far_in, pair};
ghost use Rattle.notes.specs.Known.{is_clear, NoteTo};
ghost use Rattle.first_clear.specs.Known.{route_told, Noted, Near, TwoTo};
ghost use Rattle.planner.specs.Known.{Work, Twos};

use crate::target::Target;
use choice::Outcome;
use first_clear::dest::{far_by_losses, far_by_sets};
use first_clear::near::{near_outcome, via_outcome};
use machine::leg::{ByMode, Mode};
use numbers::Refusal;
use packet::Route;
use rows::member::has;
use weights::distance::distance_at;

// The steps on the shortest ways, by the note and the two vias of the destination. The direct adaptive leg is not clear.
pub fn near_to(target: &Target, note: u32, two: u32) -> Option<Outcome>
    requires { is_clear target.now.source.now.known.plan.now Adaptive target.now.source.now.node target.now.node ≡ false }
    ensures { let s = target.now.source.now in let p = s.known.plan.now in NoteTo p s.node target.now.node note → (4096 ≤ note → TwoTo p s.node target.now.node two) → Near p s.node target.now.node result }
{
    let source = target.source;
    let shape = source.known.shape;
    let length = distance_at(source.known.weights, shape, source.at, target.at);
    if let Some(outcome) = via_outcome(note, length) {
        return Some(outcome);
    }
    let ByMode {
        adaptive,
        deterministic,
    } = source.clear;
    let straight = has(deterministic, 0, target.at);
    near_outcome(shape, length, adaptive, straight, note, two)
}

// The last step, by the sets to all nodes where the run has them, else by the losses. `note`: the destination's. The direct adaptive leg is not clear.
pub fn far_to(target: &Target, note: u32, notes: &[u32; 4096]) -> Outcome
    requires direct { is_clear target.now.source.now.known.plan.now Adaptive target.now.source.now.node target.now.node ≡ false }
    requires own { note ≡ get_or notes.now target.now.node 0 }
    ensures { let s = target.now.source.now in let p = s.known.plan.now in Work p s.known.work.now → Noted p s.node notes.now → is_clear p Deterministic s.node target.now.node ≡ false → result ≡ route_told p s.node target.now.node }
{
    let ends = target.ends();
    let source = target.source;
    let known = source.known;
    let from = source.clear.adaptive;
    if known.work.is_empty() {
        return far_by_losses(ends, known.losses, known.targets, from, note, notes);
    }
    far_by_sets(ends, known.work, target.node, from, note, notes)
}

// Directly, dead, by its note, by its two vias, or by the last step.
pub fn outcome_to(target: &Target, notes: &[u32; 4096], twos: &[u32; 4096]) -> Outcome
    ensures { let s = target.now.source.now in let p = s.known.plan.now in Work p s.known.work.now → Noted p s.node notes.now → Twos p s.node notes.now twos.now → result ≡ told (far_in p) s.node (pair large p s.node target.now.node) }
{
    let source = target.source;
    let known = source.known;
    let direct = source.clear.adaptive;
    if has(direct, 0, target.at) {
        let length = distance_at(known.weights, known.shape, source.at, target.at);
        return Outcome::Given(Route::Direct(Mode::Adaptive), length);
    }
    let i = target.node as usize;
    if known.dead[i] != 0 {
        return Outcome::Refused(Refusal::DeadEnd);
    }
    let note = notes[i];
    if let Some(outcome) = near_to(target, note, twos[i]) {
        return outcome;
    }
    far_to(target, note, notes)
}
