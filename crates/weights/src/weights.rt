// A weight for each dimension, with check 16.
ghost use Rattle.std.specs.Prelude.{◌≡◌};
ghost use Rattle.numbers.specs.Refusals.{answer_number};
ghost use Rattle.weights.specs.Weights.{bad_weight, bad_weights, weight_error};

use logic::either;
use numbers::Refusal;

#[derive(Clone, Copy)]
pub struct Weights {
    pub x: u8,
    pub y: u8,
    pub z: u8,
}

fn bad_weight(n: u8) -> bool
    ensures { result ≡ bad_weight n }
{
    either(n < 1, 8 < n)
}

impl Weights {
    #[tactic(auto, unfolding(crate::specs::Weights::bad_weights))]
    fn bad_weights(self) -> bool
        ensures { result ≡ bad_weights self }
    {
        let x = bad_weight(self.x);
        let y = bad_weight(self.y);
        let z = bad_weight(self.z);
        either(x, either(y, z))
    }

    // Check 16.
    #[tactic(auto, using(theory::proofs::Checks::declining), unfolding(crate::specs::Weights::weight_error))]
    pub fn check(self) -> Result<(), Refusal>
        ensures { answer_number result ≡ weight_error self }
    {
        if self.bad_weights() {
            return Err(Refusal::WeightOutside);
        }
        Ok(())
    }
}
