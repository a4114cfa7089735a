// The operation `listing`: the input of the listing program in hexadecimal digits, and the text that it prints.
use conform_fields::answers::put_number;
use listing_text::{TEXT_BYTES, listing_text};
use text::part::front;
use text::writer::Writer;
use text::{field, hex};

// The longest input that a case gives: a source, and a sheet as long as the cases of plan sheets give.
const CASE_BYTES: usize = 1026;

// Writes a text as the value of a field: with `_` for a blank and `/` for the end of a line it is one word.
fn put_shown(writer: &mut Writer, s: &[u8]) {
    for b in s {
        writer.byte(match b {
            b' ' => b'_',
            b'\n' => b'/',
            _ => *b,
        });
    }
}

// Writes the answer to a line `listing input=..`.
pub fn answer(line: &[u8], writer: &mut Writer) -> Option<()> {
    let mut input = [0u8; CASE_BYTES];
    let mut listing = [0u8; TEXT_BYTES];
    let input = hex::read(field::value(line, b"input="), &mut input)?;
    match listing_text(input, &mut listing) {
        Ok(size) => {
            writer.text(b"text=");
            put_shown(writer, front(&listing, size));
        }
        Err(refusal) => put_number(writer, refusal.number()),
    }
    Some(())
}
