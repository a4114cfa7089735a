// Reading a plan sheet: an accepted sheet as a value, or the cause for which a check declines it.
ghost use Rattle.std.specs.Prelude.{◌≡◌};
ghost use Rattle.numbers.specs.Refusals.{answer_number};
ghost use Rattle.plan.specs.Checks.{large, plan_error};
ghost use Rattle.plan_value.specs.Reading.{fault_array, reading};

use numbers::Refusal;
use plan::layout::{count_in, fault_in, shape_in, weights_in};
use plan::{Fault, check};
use shape::Shape;
use sheet::head::version_in;
use weights::Weights;

// The faults are the first `count` of the array. The weights of a version that has none are not written, and are read as 1. Numbers and kinds are as lent,
// and an array is beside its count, since there is no heap and `write` answers every value, also with a count above 256.
#[derive(Clone, Copy)]
pub struct Plan {
    pub version: u8,
    pub shape: Shape,
    pub weights: Weights,
    pub count: u16,
    pub faults: [Fault; 256],
}

// The faults of an accepted sheet, and zeros past them.
fn faults_in(sheet: &[u8]) -> [Fault; 256]
    requires { plan_error large sheet.now ≡ 0 }
    ensures { result ≡ fault_array sheet.now }
{
    let count = count_in(sheet);
    let mut faults = [Fault { node: 0, kind: 0 }; 256];
    for i in 0..count {
        faults[i as usize] = fault_in(sheet, i);
    }
    faults
}

pub fn read(sheet: &[u8]) -> Result<Plan, Refusal>
    ensures value { result ≡ reading (plan_error large sheet.now) sheet.now }
    ensures number { answer_number result ≡ plan_error large sheet.now }
{
    check(sheet)?;
    Ok(Plan {
        version: version_in(sheet),
        shape: shape_in(sheet),
        weights: weights_in(sheet),
        count: count_in(sheet),
        faults: faults_in(sheet),
    })
}
