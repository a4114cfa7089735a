// The listing, as text.
ghost use Rattle.std.specs.Prelude.{◌≡◌};
ghost use Rattle.sheet.specs.Output.{room_error, written, out_after};
ghost use Rattle.listing_text.specs.Text.{listing_of};
ghost use Rattle.nafthurm.specs.Forms.{written_for};

use crate::forms::WrittenForm;
use listing_text::listing_text;

#[unsafe(no_mangle)]
pub extern "C" fn nafthurm_listing(input: &[u8], out: &mut [u8]) -> WrittenForm
    ensures value { result ≡ written_for (written (room_error 0 (listing_of input.now) out.old) (listing_of input.now)) }
    ensures number { result.number ≡ room_error 0 (listing_of input.now) out.old }
    ensures out_after { out.new ≡ out_after (room_error 0 (listing_of input.now) out.old) (listing_of input.now) out.old }
{
    listing_text(input, out).into()
}
