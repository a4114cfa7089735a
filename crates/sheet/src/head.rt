// What every sheet begins with: its version, and the length of what follows.
ghost use Rattle.std.specs.Prelude.{◌≡◌};
ghost use Rattle.sheet.specs.Head.{version, length_field, bytes_after, length_is};

use crate::{byte_at, word_at};
use logic::both;

pub fn version_in(sheet: &[u8]) -> u8
    ensures { result ≡ version sheet.now }
{
    byte_at(sheet, 0)
}

// The length field.
fn length_in(sheet: &[u8]) -> usize
    ensures { result ≡ length_field sheet.now }
{
    word_at(sheet, 1)
}

// The bytes that follow the length field.
fn bytes_after(sheet: &[u8]) -> usize
    ensures { result ≡ bytes_after sheet.now }
{
    sheet.len().saturating_sub(3)
}

// Whether the length field is the bytes that follow, and n.
pub fn length_is(sheet: &[u8], n: usize) -> bool
    ensures { result ≡ length_is sheet.now n }
{
    let field = length_in(sheet);
    both(field == bytes_after(sheet), field == n)
}
