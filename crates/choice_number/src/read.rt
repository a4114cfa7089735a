// A note, and what a second via can reach, read back as what planning a pair answers.
ghost use Rattle.std.specs.Prelude.{◌≡◌, ◌%◌};
ghost use Rattle.choice_number.specs.Told.{mode_of, one_told, two_told};
ghost use Rattle.choice_number.specs.Note.{bound_of, over_of};

use choice::Outcome;
use machine::leg::Mode;
use numbers::Refusal;
use packet::Route;
use search::best::UNCLEAR;
use search::dets::det;

// Place values: of the deterministic legs, at most three,
pub const DETS: u32 = 4096;

// of the length. The first via's node number has the last place.
pub const LENGTH: u32 = 16384;

// Not `From<bool>`: a bool by itself does not say which mode it stands for.
fn mode(adaptive: bool) -> Mode
    ensures { result ≡ mode_of adaptive }
{
    if adaptive {
        Mode::Adaptive
    } else {
        Mode::Deterministic
    }
}

// The first via.
pub fn via_in(number: u32) -> u16
    ensures { result ≡ number % 4096 }
{
    (number % DETS) as u16
}

// The choice by the via of a destination's note. `length`: the distance to the destination. `first`: the leg to the via is clear and adaptive.
pub fn by_one(note: u32, length: u16, first: bool) -> Outcome
    ensures { result ≡ one_told note length first }
{
    if UNCLEAR <= note {
        return Outcome::Refused(Refusal::NoClearChoice);
    }
    let dets = note / DETS % 4;
    let whole = ((length as u32) + note / LENGTH) % 65536;
    Outcome::Given(
        Route::Via(via_in(note), mode(first), mode(dets == det(first))),
        whole as u16,
    )
}

// The choice by a second via, with what it can reach. `third`: the leg from it is clear and adaptive.
pub fn by_two(reach: u32, second: u16, first: bool, third: bool) -> Outcome
    ensures { result ≡ two_told reach second first third }
{
    let dets = reach / DETS % 4;
    let whole = reach / LENGTH % 65536;
    Outcome::Given(
        Route::Vias(
            via_in(reach),
            second,
            mode(first),
            mode(dets == det(first) + det(third)),
            mode(third),
        ),
        whole as u16,
    )
}

// What a second via has to be below, by the destination's note.
pub fn bound(note: u32, length: u16) -> u32
    ensures { result ≡ bound_of note length }
{
    if UNCLEAR <= note {
        return UNCLEAR;
    }
    DETS * (note / DETS + 4 * (length as u32))
}

// By how much the length by way of a second via may be above the distance, by the destination's note.
pub fn over(note: u32) -> u16
    ensures { result ≡ over_of note }
{
    if UNCLEAR <= note {
        return 65535;
    }
    ((note / DETS + 3) / 4) as u16
}
