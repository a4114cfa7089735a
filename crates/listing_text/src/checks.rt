// The checks of a listing.
ghost use Rattle.std.specs.Prelude.{◌≡◌};
ghost use Rattle.numbers.specs.Refusals.{answer_number};
ghost use Rattle.listing_text.specs.Text.{source_in, listing_error};

use numbers::Refusal;
use planner::sheets::check_source;
use sheet::word_at;

pub fn source_in(input: &[u8]) -> u16
    ensures { result ≡ source_in input.now }
{
    word_at(input, 0) as u16
}

// Under two bytes is 1.
pub fn check_listing(input: &[u8]) -> Result<(), Refusal>
    ensures { answer_number result ≡ listing_error input.now }
{
    if input.len() < 2 {
        return Err(Refusal::PlanShort);
    }
    check_source(&input[2..], source_in(input))
}
