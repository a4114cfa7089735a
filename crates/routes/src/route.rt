// What a sheet says of a destination. It answers from the sheet alone and never judges its routes against the faults.
ghost use Rattle.std.specs.Prelude.{◌≡◌};
ghost use Rattle.plan.specs.Checks.{large};
ghost use Rattle.choice.specs.Outcome.{told, outcome_number, told_number};
ghost use Rattle.choice.specs.Pair.{far_in};
ghost use Rattle.routes.specs.Layout.{source};
ghost use Rattle.routes.specs.Says.{says};
ghost use Rattle.routes.specs.Steps.{found_in, length_by};

use crate::kinds::outcome_by;
use crate::layout::{Entry, entry_in, source_in};
use crate::lookup::{check_lookup, find_entry};
use choice::Outcome;
use machine::leg::Mode;
use packet::Route;
use plan::layout::{shape_in, weights_in};
use shape::Shape;
use weights::Weights;
use weights::distance::distance;

fn found_in(sheet: &[u8], dest: u16) -> Option<Entry>
    ensures { result ≡ found_in sheet.now dest }
{
    let i = find_entry(sheet, dest)?;
    Some(entry_in(sheet, i))
}

// The length of an entry's route.
fn length_by(weights: Weights, shape: Shape, source: u16, e: Entry) -> u16
    ensures { result ≡ length_by weights shape source e }
{
    let far = |a: u16, t: u16| distance(weights, shape, a, t);
    match e.kind / 16 {
        2 => far(source, e.via) + (far(e.via, e.second) + far(e.second, e.dest)),
        1 => far(source, e.via) + far(e.via, e.dest),
        _ => far(source, e.dest),
    }
}

// The route with its length, or 10 or 11 for an entry of kind 160 or 176, or the cause for which the lookup is declined.
pub fn route(plan: &[u8], sheet: &[u8], dest: u16) -> Outcome
    ensures value { result ≡ told (far_in plan.now) (source sheet.now) (says large plan.now sheet.now dest) }
    ensures number { outcome_number result ≡ told_number (says large plan.now sheet.now dest) }
{
    if let Err(refusal) = check_lookup(plan, sheet, dest) {
        return Outcome::Refused(refusal);
    }
    let weights = weights_in(plan);
    let shape = shape_in(plan);
    let source = source_in(sheet);
    let found = found_in(sheet, dest);
    let Some(entry) = found else {
        let length = distance(weights, shape, source, dest);
        return Outcome::Given(Route::Direct(Mode::Adaptive), length);
    };
    outcome_by(entry, length_by(weights, shape, source, entry))
}
