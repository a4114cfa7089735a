// The line of a destination: its number, then the kind, the two vias and the length of what planning answers for it.
ghost use Rattle.std.specs.Prelude.{◌≡◌, ◌+◌, ◌≤◌};
ghost use Rattle.listing_text.specs.Steps.{Wrote, kind_in, via_by, via_in, second_by, second_in, length_in, outcome_line};

use crate::lent::Lent;
use choice::Outcome;
use packet::Route;
use routes::kinds::entry_for;

fn kind_of(outcome: Outcome) -> u8
    ensures { result ≡ kind_in outcome }
{
    let entry = entry_for(0, outcome);
    entry.kind
}

fn via_by(route: Route) -> Option<u16>
    ensures { result ≡ via_by route }
{
    match route {
        Route::Direct(_) => None,
        Route::Via(via, _, _) => Some(via),
        Route::Vias(via, _, _, _, _) => Some(via),
    }
}

fn via_of(outcome: Outcome) -> Option<u16>
    ensures { result ≡ via_in outcome }
{
    match outcome {
        Outcome::Given(route, _) => via_by(route),
        Outcome::Refused(_) => None,
    }
}

fn second_by(route: Route) -> Option<u16>
    ensures { result ≡ second_by route }
{
    match route {
        Route::Direct(_) => None,
        Route::Via(_, _, _) => None,
        Route::Vias(_, further, _, _, _) => Some(further),
    }
}

fn second_of(outcome: Outcome) -> Option<u16>
    ensures { result ≡ second_in outcome }
{
    match outcome {
        Outcome::Given(route, _) => second_by(route),
        Outcome::Refused(_) => None,
    }
}

fn length_of(outcome: Outcome) -> Option<u16>
    ensures { result ≡ length_in outcome }
{
    match outcome {
        Outcome::Given(_, length) => Some(length),
        Outcome::Refused(_) => None,
    }
}

// Writes the line.
pub fn put_line(lent: &mut Lent<'_>, dest: u16, outcome: Outcome)
    requires { lent.old.at ≤ 900000 }
    ensures wrote { Wrote lent.old lent.new (outcome_line dest outcome) }
    ensures upper_bound { lent.new.at ≤ lent.old.at + 30 }
{
    lent.field(Some(dest), b' ');
    lent.field(Some(kind_of(outcome) as u16), b' ');
    lent.field(via_of(outcome), b' ');
    lent.field(second_of(outcome), b' ');
    lent.field(length_of(outcome), b'\n');
}
