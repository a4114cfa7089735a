// The answer's number, and what a writing call answers.
use numbers::Refusal;
use text::writer::Writer;

// 0, or the number of the refusal.
pub fn number_of<T>(answer: &Result<T, Refusal>) -> u8 {
    match answer {
        Ok(_) => 0,
        Err(refusal) => refusal.number(),
    }
}

// Writes the field `number`.
pub fn put_number(writer: &mut Writer, number: u8) {
    writer.field(b"number=", u64::from(number));
}

// Writes the fields `number`, `size` and `out`, which is the lent output whole.
pub fn put_written(writer: &mut Writer, written: Result<usize, Refusal>, lent: &[u8]) {
    put_number(writer, number_of(&written));
    writer.field(b" size=", written.unwrap_or(0) as u64);
    writer.text(b" out=");
    writer.hex(lent);
}
