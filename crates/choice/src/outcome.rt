// What planning a pair gives, and what a route sheet says of a destination.
ghost use Rattle.std.specs.Prelude.{◌≡◌};
ghost use Rattle.numbers.specs.Refusals.{refusal};
ghost use Rattle.choice.specs.declared.outcome.Outcome.{Outcome};
ghost use Rattle.choice.specs.Outcome.{outcome_number};

use numbers::Refusal;
use packet::Route;

// A route with its length, or the refusal.
#[derive(Clone, Copy)]
pub enum Outcome {
    Given(Route, u16),
    Refused(Refusal),
}

impl Outcome {
    // The refusal with a number; with one that no cause has, the first.
    pub fn refused(number: u8) -> Outcome
        ensures { result ≡ Outcome.Refused (refusal number) }
    {
        let refusal = match number {
            2 => Refusal::PlanVersionUnknown,
            3 => Refusal::ManyFaults,
            4 => Refusal::WrongLength,
            5 => Refusal::ExtentOutside,
            6 => Refusal::WrongWrap,
            7 => Refusal::NoSuchFault,
            8 => Refusal::FaultNotAbove,
            9 => Refusal::NodeOutside,
            10 => Refusal::DeadEnd,
            11 => Refusal::NoClearChoice,
            12 => Refusal::OutputShort,
            13 => Refusal::WrongRouteSheet,
            14 => Refusal::WrongPacket,
            15 => Refusal::NotAllowed,
            16 => Refusal::WeightOutside,
            17 => Refusal::EntryNotKept,
            18 => Refusal::NotBack,
            _ => Refusal::PlanShort,
        };
        Outcome::Refused(refusal)
    }

    // 0, or the number of the refusal.
    pub fn number(self) -> u8
        ensures { result ≡ outcome_number self }
    {
        match self {
            Outcome::Given(_, _) => 0,
            Outcome::Refused(refusal) => refusal.number(),
        }
    }
}
