// Lists of calls on a packet as text, `s00,w0001,w,b00`: `s` and a direction is a step, `w` and a run a walk, `b` and a direction a hop taken back; `-` for none.
use crate::endings::put_ending;
use conform_fields::answers::number_of;
use conform_fields::lists::put_comma;
use packet::{Packet, Stepped, Walked};
use shape::Shape;
use text::hex;
use text::writer::Writer;

// The longest run of directions of one call.
const RUN_BYTES: usize = 256;

// Writes the number that a step, or taking a hop back, answers. The packet after it.
fn put_stepped(writer: &mut Writer, stepped: Stepped) -> Packet {
    writer.number(u64::from(number_of(&stepped.answer)));
    stepped.packet
}

// Writes `hops+ending` of a walk. The packet after it.
fn put_walked(writer: &mut Writer, walked: Walked) -> Packet {
    writer.number(walked.hops as u64);
    writer.byte(b'+');
    put_ending(writer, walked.ending);
    walked.packet
}

// Reads directions; none where `s` is empty.
fn read_directions<'a>(s: &[u8], bytes: &'a mut [u8]) -> Option<&'a [u8]> {
    match s {
        b"" => Some(b""),
        _ => hex::read(s, bytes),
    }
}

// Makes one call and writes what it answers. The packet after it, if the call can be read.
fn call(s: &[u8], shape: Shape, packet: Packet, writer: &mut Writer) -> Option<Packet> {
    let mut bytes = [0u8; RUN_BYTES];
    let (name, rest) = s.split_first()?;
    let directions = read_directions(rest, &mut bytes)?;
    match (*name, directions) {
        (b's', [direction]) => Some(put_stepped(writer, packet.step(shape, *direction))),
        (b'w', _) => Some(put_walked(writer, packet.walk(shape, directions))),
        (b'b', [direction]) => Some(put_stepped(writer, packet.take_back(shape, *direction))),
        _ => None,
    }
}

// Makes the calls of `s` one after the other and writes their answers. The packet after them, if all can be read.
pub fn make_calls(s: &[u8], shape: Shape, packet: Packet, writer: &mut Writer) -> Option<Packet> {
    if s == b"-".as_slice() {
        writer.byte(b'-');
        return Some(packet);
    }
    let mut after = packet;
    for (i, text) in s.split(|b| *b == b',').enumerate() {
        put_comma(writer, i);
        after = call(text, shape, after, writer)?;
    }
    Some(after)
}
