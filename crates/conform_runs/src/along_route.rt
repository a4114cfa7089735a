// A run along a route, as text.
use conform_stepper::calls::make_calls;
use conform_stepper::packets::{put_legs, put_packet};
use packet::Packet;
use shape::Shape;
use text::field;
use text::writer::Writer;

// Writes the fields `legs`, `answers` and `packet` of a new packet.
pub(crate) fn put_run(
    line: &[u8],
    shape: Shape,
    packet: Packet,
    writer: &mut Writer,
) -> Option<()> {
    writer.text(b"legs=");
    put_legs(writer, packet);
    writer.text(b" answers=");
    let after = make_calls(field::value(line, b"calls="), shape, packet, writer)?;
    writer.text(b" packet=");
    put_packet(writer, after);
    Some(())
}
