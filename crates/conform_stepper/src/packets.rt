// Packets as text, `source;node;mark;target:mode,target:mode`: the legs are the whole route, and the mark is the number of one, counted from 0.
use conform_fields::leg_fields::put_leg;
use conform_fields::lists::put_comma;
use conform_fields::shapes::read_shape;
use machine::leg::{Leg, Mode};
use packet::{MOST_LEGS, Packet};
use shape::Shape;
use text::part::{after, before};
use text::writer::Writer;
use text::{decimal, field};

// The shape and the packet of a line.
#[derive(Clone, Copy)]
pub(crate) struct Case {
    pub shape: Shape,
    pub packet: Packet,
}

fn mode(s: &[u8]) -> Option<Mode> {
    match s {
        b"A" => Some(Mode::Adaptive),
        b"D" => Some(Mode::Deterministic),
        _ => None,
    }
}

// A leg `target:mode`.
fn leg(s: &[u8]) -> Option<Leg> {
    Some(Leg {
        target: decimal::read_as(before(s, b':'))?,
        mode: mode(after(s, b':'))?,
    })
}

// The packet, which has no legs, with those of `s`, with commas between them; none where `s` is empty. Of more legs than it can hold it keeps the count, which
// the stepper declines.
fn with_legs(bare: Packet, s: &[u8]) -> Option<Packet> {
    let mut packet = bare;
    if s.is_empty() {
        return Some(packet);
    }
    for (i, text) in s.split(|b| *b == b',').enumerate() {
        let next = leg(text)?;
        if let Some(place) = packet.legs.get_mut(i) {
            *place = next;
        }
        packet.count = packet.count.saturating_add(1);
    }
    Some(packet)
}

// The text of a line's packet.
fn packet_text(line: &[u8]) -> &[u8] {
    field::value(line, b"packet=")
}

// A packet `source;node;mark;legs`.
fn packet(s: &[u8]) -> Option<Packet> {
    let mut parts = s.splitn(4, |b| *b == b';');
    let source = decimal::read_as(parts.next()?)?;
    let node = decimal::read_as(parts.next()?)?;
    let mark = decimal::read_as(parts.next()?)?;
    let leg = Leg {
        target: 0,
        mode: Mode::Adaptive,
    };
    let bare = Packet::with(source, node, [leg; MOST_LEGS], 0, mark);
    with_legs(bare, parts.next()?)
}

// Reads the fields `extents`, `wrap` and `packet`.
pub(crate) fn read_case(line: &[u8]) -> Option<Case> {
    Some(Case {
        shape: read_shape(line)?,
        packet: packet(packet_text(line))?,
    })
}

// Writes the legs of a packet's route, as many as it can hold.
pub fn put_legs(writer: &mut Writer, packet: Packet) {
    let count = MOST_LEGS.min(packet.count as usize);
    for (i, leg) in packet.legs[..count].iter().enumerate() {
        put_comma(writer, i);
        put_leg(writer, leg.target, leg.mode);
    }
}

// Writes a packet.
pub fn put_packet(writer: &mut Writer, packet: Packet) {
    writer.number(u64::from(packet.source));
    writer.field(b";", u64::from(packet.node));
    writer.field(b";", u64::from(packet.mark));
    writer.byte(b';');
    put_legs(writer, packet);
}

// Writes the field `packet` of the answer to a line. A packet with more legs than it can hold is written as the line gives it.
pub(crate) fn put_answer(writer: &mut Writer, packet: Packet, line: &[u8]) {
    writer.text(b" packet=");
    if MOST_LEGS < packet.count as usize {
        writer.text(packet_text(line));
    } else {
        put_packet(writer, packet);
    }
}
