// The listing of an input that was read into a buffer.
ghost use Rattle.std.specs.Prelude.{◌≡◌, List, ℕ, length, take};
ghost use Rattle.sheet.specs.Input.{ReadInto};
ghost use Rattle.sheet.specs.Output.{out_after};
ghost use Rattle.listing_text.specs.Text.{listing_of};

use crate::writing::listing_text;
use text::part::front;

// One byte more than the longest input that is accepted, a source and a plan of version 2 with 256 faults: of a longer input these bytes decide the text.
pub const INPUT_BYTES: usize = 783;

// No text is longer.
pub const TEXT_BYTES: usize = 94222;

// Buffer and size are two, since the contract says how the whole input was read into the buffer (`ReadInto`).
// Writes the listing of the whole input, and answers its length. A size above INPUT_BYTES counts as INPUT_BYTES.
pub fn listing(input: &[u8; INPUT_BYTES], size: usize, text: &mut [u8; TEXT_BYTES]) -> usize
    ensures value { result ≡ length (listing_of (take size input.now)) }
    ensures text_after { text.new ≡ out_after 0 (listing_of (take size input.now)) text.old }
    ensures by_index { (whole : List ℕ) → ReadInto whole input.now size → take result text.new ≡ listing_of whole }
{
    listing_text(front(input, size), text).unwrap_or(0)
}
