// The kinds of an entry: 16 × vias plus a bit for each deterministic leg, leg one lowest; 160 is a dead destination, 176 no clear choice. 0, direct
// adaptive, is never listed.
ghost use Rattle.std.specs.Prelude.{◌≡◌, ℕ, ◌<◌};
ghost use Rattle.numbers.specs.Refusals.{number};
ghost use Rattle.packet.specs.declared.route.Route.{Route};
ghost use Rattle.packet.specs.New.{legs_to};
ghost use Rattle.choice.specs.Answer.{Given};
ghost use Rattle.choice.specs.Choice.{det};
ghost use Rattle.choice.specs.Outcome.{told_as};
ghost use Rattle.routes.specs.Kinds.{kind_of, refused_kind, plain_kind, via_kind, vias_kind, from_old};
ghost use Rattle.routes.specs.Said.{mode_by, said_by, entry_for, heard};

use crate::layout::Entry;
use choice::Outcome;
use machine::leg::Mode;
use numbers::Refusal;
use packet::Route;

pub const DEAD_KIND: u8 = 160;

pub const NONE_KIND: u8 = 176;

// No kind has this number.
pub const NO_KIND: u8 = 255;

// By one via.
pub fn has_via(kind: u8) -> bool
    ensures { result ≡ via_kind kind }
{
    matches!(kind, 16..=19)
}

// By two.
pub fn has_vias(kind: u8) -> bool
    ensures { result ≡ vias_kind kind }
{
    matches!(kind, 32..=39)
}

// By none.
pub fn is_plain(kind: u8) -> bool
    ensures { result ≡ plain_kind kind }
{
    matches!(kind, 1 | DEAD_KIND | NONE_KIND)
}

fn refused_kind(refusal: Refusal) -> u8
    ensures { result ≡ refused_kind (number refusal) }
{
    match refusal {
        Refusal::DeadEnd => DEAD_KIND,
        Refusal::NoClearChoice => NONE_KIND,
        _ => NO_KIND,
    }
}

// The kind of version 3 with the same legs, or the same refusal, as document 01's, of versions 1 and 2: a table of the document, and so by hand.
pub fn from_old(kind: u8) -> u8
    ensures { result ≡ from_old kind }
{
    match kind {
        0 => 0,
        1 => 1,
        2 => 16,
        3 => 18,
        4 => 17,
        5 => 19,
        10 => DEAD_KIND,
        11 => NONE_KIND,
        _ => NO_KIND,
    }
}

// The mode by the lowest bit.
fn mode_by(bits: u8) -> Mode
    ensures { result ≡ mode_by bits }
{
    if bits % 2 == 1 {
        Mode::Deterministic
    } else {
        Mode::Adaptive
    }
}

// What an entry says, with the length of its route.
pub fn outcome_by(entry: Entry, length: u16) -> Outcome
    ensures { result ≡ told_as length (said_by entry) }
{
    let kind = entry.kind;
    let via = entry.via;
    let second = entry.second;
    let one = mode_by(kind);
    let two = mode_by(kind / 2);
    let three = mode_by(kind / 4);
    let vias = kind / 16;
    match vias {
        0 => Outcome::Given(Route::Direct(one), length),
        1 => Outcome::Given(Route::Via(via, one, two), length),
        2 => Outcome::Given(Route::Vias(via, second, one, two, three), length),
        _ => Outcome::refused(vias),
    }
}

// The bit of a leg.
fn bit(mode: Mode) -> u8
    ensures value { result ≡ det mode }
    ensures upper_bound { result < 2 }
{
    mode as u8
}

fn kind_direct(mode: Mode) -> u8
    ensures { (d : ℕ) → result ≡ kind_of (legs_to d (Route.Direct mode)) }
{
    bit(mode)
}

fn kind_via(first: Mode, second: Mode) -> u8
    ensures { (d v : ℕ) → result ≡ kind_of (legs_to d (Route.Via v first second)) }
{
    16 + (bit(first) + 2 * bit(second))
}

fn kind_vias(first: Mode, second: Mode, third: Mode) -> u8
    ensures { (d v u : ℕ) → result ≡ kind_of (legs_to d (Route.Vias v u first second third)) }
{
    32 + (bit(first) + 2 * (bit(second) + 2 * bit(third)))
}

fn entry_with(dest: u16, route: Route) -> Entry
    ensures { result ≡ entry_for dest (Given (legs_to dest route)) }
{
    match route {
        Route::Direct(mode) => Entry {
            dest: dest,
            kind: kind_direct(mode),
            via: 0,
            second: 0,
        },
        Route::Via(via, first, second) => Entry {
            dest: dest,
            kind: kind_via(first, second),
            via: via,
            second: 0,
        },
        Route::Vias(via, further, first, second, third) => Entry {
            dest: dest,
            kind: kind_vias(first, second, third),
            via: via,
            second: further,
        },
    }
}

// The entry of a destination.
pub fn entry_for(dest: u16, outcome: Outcome) -> Entry
    ensures { result ≡ entry_for dest (heard dest outcome) }
{
    match outcome {
        Outcome::Given(route, _) => entry_with(dest, route),
        Outcome::Refused(refusal) => Entry {
            dest: dest,
            kind: refused_kind(refusal),
            via: 0,
            second: 0,
        },
    }
}
