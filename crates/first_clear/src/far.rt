// The last step, where no direct leg is clear: what each node as second via can reach, against the best via by itself.
ghost use Rattle.std.specs.Prelude.{◌≡◌, List, ℕ, ◌<◌, ◌+◌, ◌≤◌, length as size, get_or};
ghost use Rattle.weights.specs.Steps.{distance_word};
ghost use Rattle.second_via.specs.Reach.{reach_in};
ghost use Rattle.first_clear.specs.Known.{route_told, Reaching};

use choice::Outcome;
use choice_number::read::{bound, by_one, by_two, via_in};
use machine::node::coords;
use numbers::Refusal;
use rows::member::has;
use rows::product::Places;
use search::best::UNCLEAR;
use search::lowest::has_rows;
use second_via::least::least;
use second_via::reach::store;
use weights::Ends;
use weights::distance::distance_at;

// What is asked. `places`: those of every second via that may be better than the note. `from`: the nodes with a clear adaptive leg from the source. `note`: the
// destination's. `to`: both sets to the destination, from place `at` on.
#[derive(Clone, Copy)]
pub struct Far<'a> {
    pub ends: Ends,
    pub places: Places,
    pub from: &'a [u16; 256],
    pub note: u32,
    pub to: &'a [u16],
    pub at: usize,
}

// By what each node can reach, `reached`. Not inlined, so that the array is not copied on the stack.
#[inline(never)]
fn far_by(far: &Far, length: u16, reached: &[u32; 4096]) -> Outcome
    requires { far.now.at + 512 ≤ size far.now.to.now }
    ensures { let f = far.now in let e = f.ends in let b = f.places in (p : List ℕ) (S D : ℕ) (notes : List ℕ) → Reaching p e.weights e.shape S D length e.a e.t b.x b.y b.z f.from.now f.note f.to.now f.at notes → ((w : ℕ) → w < 4096 → get_or reached.now w 0 ≡ reach_in e.weights e.shape e.a e.t b.x b.y b.z notes f.to.now f.at w) → result ≡ route_told p S D }
{
    let Far {
        ends,
        places,
        from,
        note,
        to,
        at,
    } = *far;
    let shape = ends.shape;
    let all = [65535u16; 256];
    let limit = bound(note, length);
    if let Some(second) = least(shape, places, &all, to, at + 256, reached, limit) {
        let value = reached[second as usize];
        let first = has(from, 0, coords(shape, via_in(value)));
        let third = has(to, at, coords(shape, second));
        return by_two(value, second, first, third);
    }
    let first = has(from, 0, coords(shape, via_in(note)));
    by_one(note, length, first)
}

pub fn far_outcome(far: &Far, notes: &[u32; 4096]) -> Outcome
    ensures { let f = far.now in let e = f.ends in let b = f.places in (p : List ℕ) (S D : ℕ) → Reaching p e.weights e.shape S D (distance_word e.weights e.shape e.a e.t) e.a e.t b.x b.y b.z f.from.now f.note f.to.now f.at notes.now → result ≡ route_told p S D }
{
    let Far {
        ends,
        places,
        to,
        at,
        ..
    } = *far;
    if !has_rows(to.len(), at, 512) {
        return Outcome::Refused(Refusal::NoClearChoice);
    }
    let mut reached = [UNCLEAR; 4096];
    store(&mut reached, ends, places, notes, to, at);
    let length = distance_at(ends.weights, ends.shape, ends.a, ends.t);
    far_by(far, length, &reached)
}
