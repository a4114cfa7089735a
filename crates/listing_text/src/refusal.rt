// A refusal is the one line `refused` and the number.
ghost use Rattle.std.specs.Prelude.{◌≡◌};
ghost use Rattle.listing_text.specs.Text.{refusal};
ghost use Rattle.listing_text.specs.Steps.{Wrote};

use crate::lent::Lent;

// Writes the line at the front.
pub fn put_refusal(lent: &mut Lent<'_>, number: u8)
    requires { lent.old.at ≡ 0 }
    ensures { Wrote lent.old lent.new (refusal number) }
{
    lent.text(b"refused ");
    lent.field(Some(number as u16), b'\n');
}
