// The operation `walk`: one call of the stepper's walk.
use crate::endings::put_ending;
use crate::packets::{put_answer, read_case};
use conform_fields::answers::put_number;
use text::writer::Writer;
use text::{field, hex};

// The longest run of directions.
const RUN_BYTES: usize = 65536;

// Writes the answer to a line `walk extents=.. wrap=.. packet=.. run=..`.
pub fn answer(line: &[u8], writer: &mut Writer) -> Option<()> {
    let case = read_case(line)?;
    let mut bytes = [0u8; RUN_BYTES];
    let run = hex::read(field::value(line, b"run="), &mut bytes)?;
    let walked = case.packet.walk(case.shape, run);
    put_number(writer, walked.ending.number());
    put_answer(writer, walked.packet, line);
    writer.field(b" hops=", walked.hops as u64);
    writer.text(b" ending=");
    put_ending(writer, walked.ending);
    Some(())
}
