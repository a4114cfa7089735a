// The steps on the shortest ways: the lowest via with two adaptive legs, which is the destination's note; the lowest two vias with three; the direct deterministic
// leg; a via with one deterministic leg.
ghost use Rattle.std.specs.Prelude.{◌≡◌, List, ℕ};
ghost use Rattle.first_clear.specs.Known.{via_route, Near, TwoTo, Pairing, Nearing};

use choice::Outcome;
use choice_number::read::{by_one, via_in};
use machine::leg::Mode;
use machine::node::coords;
use packet::Route;
use rows::member::has;
use rows::product::Places;
use search::best::UNCLEAR;
use second_via::least::least;
use shape::Shape;

// By the note of the destination, at this distance, where it is a via with two adaptive legs.
pub fn via_outcome(note: u32, length: u16) -> Option<Outcome>
    ensures { result ≡ via_route note length }
{
    if note < 4096 {
        return Some(Outcome::Given(
            Route::Via(note as u16, Mode::Adaptive, Mode::Adaptive),
            length,
        ));
    }
    None
}

// Where it is not: the two vias, 4,096 times the first and the second; `UNCLEAR` where there are none. `places`: those between the two ends. `to`: the nodes there
// with a clear adaptive leg to the destination, from place `at` on. A number, and no `Option` of a pair: it is kept in the array of all nodes.
pub fn two_vias(shape: Shape, places: Places, to: &[u16], at: usize, notes: &[u32; 4096]) -> u32
    ensures { (p : List ℕ) (S D : ℕ) → Pairing p shape S D places.x places.y places.z to.now at notes.now → TwoTo p S D result }
{
    let all = [65535u16; 256];
    match least(shape, places, &all, to, at, notes, 4096) {
        Some(second) => 4096 * notes[second as usize] + second as u32,
        None => UNCLEAR,
    }
}

// The steps behind the first. `from`: the nodes with a clear adaptive leg from the source. `straight`: the direct deterministic leg is clear. `note`, `two`: the
// destination's.
pub fn near_outcome(
    shape: Shape,
    length: u16,
    from: &[u16; 256],
    straight: bool,
    note: u32,
    two: u32,
) -> Option<Outcome>
    ensures { (p : List ℕ) (S D : ℕ) → Nearing p shape S D length from.now straight note two → Near p S D result }
{
    if two < UNCLEAR {
        return Some(Outcome::Given(
            Route::Vias(
                (two / 4096 % 4096) as u16,
                (two % 4096) as u16,
                Mode::Adaptive,
                Mode::Adaptive,
                Mode::Adaptive,
            ),
            length,
        ));
    }
    if straight {
        return Some(Outcome::Given(Route::Direct(Mode::Deterministic), length));
    }
    if note < 8192 {
        let first = has(from, 0, coords(shape, via_in(note)));
        return Some(by_one(note, length, first));
    }
    None
}
