// Reading a plan sheet: the shape alone or the weights alone, zeros where a check declines the sheet.
ghost use Rattle.std.specs.Prelude.{◌≡◌};
ghost use Rattle.plan.specs.Checks.{large};
ghost use Rattle.plan.specs.Reading.{shape_answer, weights_answer};

use crate::checks::check;
use crate::layout::{shape_in, weights_in};
use shape::Shape;
use weights::Weights;

pub fn shape_of(sheet: &[u8]) -> Shape
    ensures { result ≡ shape_answer large sheet.now }
{
    match check(sheet) {
        Ok(()) => shape_in(sheet),
        Err(_) => Shape {
            x: 0,
            y: 0,
            z: 0,
            wrap: 0,
        },
    }
}

pub fn weights_of(sheet: &[u8]) -> Weights
    ensures { result ≡ weights_answer large sheet.now }
{
    match check(sheet) {
        Ok(()) => weights_in(sheet),
        Err(_) => Weights { x: 0, y: 0, z: 0 },
    }
}
