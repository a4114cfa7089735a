// Which entries can be kept, from a source by its coordinates `at`.
ghost use Rattle.std.specs.Prelude.{ℕ, true, ◌&&◌, ◌≡◌};
ghost use Rattle.theory.specs.Machine.{Inside};
ghost use Rattle.shape.specs.Shape.{shape_error};
ghost use Rattle.machine.specs.declared.leg.Mode.TheVariants.{Deterministic};
ghost use Rattle.machine.specs.Number.{coords_of};
ghost use Rattle.machine.specs.Node.{is_node};
ghost use Rattle.machine.specs.Torus.{torus};
ghost use Rattle.packet.specs.New.{legs_to};
ghost use Rattle.conversion.specs.Keeping.{leg_kept, legs_kept, entry_kept};

use crate::half::odd_half;
use choice::Outcome;
use logic::both;
use machine::leg::Mode;
use machine::node::coords;
use numbers::Refusal;
use packet::Route;
use routes::Entry;
use routes::kinds::outcome_by;
use shape::{Coords, Shape};

// A leg, by the coordinates of its start.
fn leg_kept(mode: Mode, shape: Shape, at: Coords, target: u16) -> bool
    requires { is_node shape target ≡ true }
    ensures { (a : ℕ) → at ≡ coords_of shape a → result ≡ leg_kept mode shape a target }
{
    match mode {
        Mode::Adaptive => true,
        Mode::Deterministic => !odd_half(shape, at, coords(shape, target)),
    }
}

// A later leg alone, from its own start: apart from `leg_kept` for speed, since an adaptive leg asks for no coordinates.
fn second_kept(mode: Mode, shape: Shape, via: u16, dest: u16) -> bool
    requires via_value { is_node shape via ≡ true }
    requires dest_value { is_node shape dest ≡ true }
    ensures { result ≡ leg_kept mode shape via dest }
{
    match mode {
        Mode::Adaptive => true,
        Mode::Deterministic => !odd_half(shape, coords(shape, via), coords(shape, dest)),
    }
}

// A deterministic leg and the one behind it, which begins where it ends.
fn both_kept(second: Mode, shape: Shape, at: Coords, via: u16, dest: u16) -> bool
    requires via_value { is_node shape via ≡ true }
    requires dest_value { is_node shape dest ≡ true }
    ensures { (a : ℕ) → at ≡ coords_of shape a → result ≡ (leg_kept Deterministic shape a via && leg_kept second shape via dest) }
{
    let place = coords(shape, via);
    both(
        !odd_half(shape, at, place),
        leg_kept(second, shape, place, dest),
    )
}

// No coordinates are worked out where both legs are adaptive, as they mostly are.
fn via_kept(shape: Shape, at: Coords, via: u16, dest: u16, first: Mode, second: Mode) -> bool
    requires via_value { is_node shape via ≡ true }
    requires dest_value { is_node shape dest ≡ true }
    ensures { (a : ℕ) → at ≡ coords_of shape a → result ≡ (leg_kept first shape a via && leg_kept second shape via dest) }
{
    match first {
        Mode::Adaptive => second_kept(second, shape, via, dest),
        Mode::Deterministic => both_kept(second, shape, at, via, dest),
    }
}

// Three legs no sheet of version 1 has.
fn route_kept(shape: Shape, at: Coords, dest: u16, route: Route) -> bool
    requires shape_value { shape_error shape ≡ 0 }
    requires inside { Inside (torus shape) (legs_to dest route) }
    ensures { (a : ℕ) → at ≡ coords_of shape a → result ≡ legs_kept shape a (legs_to dest route) }
{
    match route {
        Route::Direct(mode) => leg_kept(mode, shape, at, dest),
        Route::Via(via, first, second) => via_kept(shape, at, via, dest, first, second),
        Route::Vias(via, further, first, second, third) => both(
            via_kept(shape, at, via, further, first, second),
            second_kept(third, shape, further, dest),
        ),
    }
}

pub fn entry_kept(shape: Shape, at: Coords, e: Entry) -> bool
    requires dest_value { is_node shape e.dest ≡ true }
    requires via_value { is_node shape e.via ≡ true }
    requires second_value { is_node shape e.second ≡ true }
    ensures { (a : ℕ) → at ≡ coords_of shape a → result ≡ entry_kept shape a e }
{
    match outcome_by(e, 0) {
        Outcome::Given(route, _) => route_kept(shape, at, e.dest, route),
        Outcome::Refused(refusal) => refusal != Refusal::NoClearChoice,
    }
}
