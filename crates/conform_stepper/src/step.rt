// The operations `step` and `takeback`: one hop, forth or back.
use crate::packets::{put_answer, read_case};
use conform_fields::answers::{number_of, put_number};
use conform_fields::nodes::read_direction;
use packet::Stepped;
use text::writer::Writer;

fn put_stepped(writer: &mut Writer, stepped: Stepped, line: &[u8]) {
    put_number(writer, number_of(&stepped.answer));
    put_answer(writer, stepped.packet, line);
}

// Writes the answer to a line `step extents=.. wrap=.. packet=.. direction=..`.
pub fn answer(line: &[u8], writer: &mut Writer) -> Option<()> {
    let case = read_case(line)?;
    let stepped = case.packet.step(case.shape, read_direction(line)?);
    put_stepped(writer, stepped, line);
    Some(())
}

// Writes the answer to a line `takeback extents=.. wrap=.. packet=.. direction=..`.
pub fn answer_back(line: &[u8], writer: &mut Writer) -> Option<()> {
    let case = read_case(line)?;
    let stepped = case.packet.take_back(case.shape, read_direction(line)?);
    put_stepped(writer, stepped, line);
    Some(())
}
