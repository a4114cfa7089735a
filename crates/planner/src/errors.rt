// The checks of the ends, behind those of the plan.
ghost use Rattle.std.specs.Prelude.{◌≡◌};
ghost use Rattle.numbers.specs.Refusals.{answer_number};
ghost use Rattle.planner.specs.Steps.{first_error};

use numbers::Refusal;

// 9 where a node is not known, then 10 where one is dead.
pub fn check_ends(known: bool, dead: bool) -> Result<(), Refusal>
    ensures { answer_number result ≡ first_error 0 known dead }
{
    if !known {
        return Err(Refusal::NodeOutside);
    }
    if dead {
        return Err(Refusal::DeadEnd);
    }
    Ok(())
}
