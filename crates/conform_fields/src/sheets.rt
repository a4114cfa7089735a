// The fields that give a sheet, a pair of a plan's nodes, or the room of lent output.
use crate::nodes::{read_destination, read_source};
use text::{decimal, field, hex};

// The longest plan sheet that a case gives: one of version 2 with 256 faults has 780 bytes.
pub const PLAN_BYTES: usize = 1024;

// The longest route sheet that a case gives: one of 4,095 entries has 28,672 bytes.
pub const ROUTE_BYTES: usize = 28736;

// Reads the field `plan=` into the front of `bytes`.
pub fn read_plan<'a>(line: &[u8], bytes: &'a mut [u8]) -> Option<&'a [u8]> {
    hex::read(field::value(line, b"plan="), bytes)
}

// Reads the field `sheet=` into the front of `bytes`.
pub fn read_routes<'a>(line: &[u8], bytes: &'a mut [u8]) -> Option<&'a [u8]> {
    hex::read(field::value(line, b"sheet="), bytes)
}

// A plan sheet, and the two ends of a pair.
#[derive(Clone, Copy)]
pub struct Pair<'a> {
    pub plan: &'a [u8],
    pub source: u16,
    pub dest: u16,
}

// Reads the fields `plan=`, into the front of `bytes`, `source=` and `destination=`.
pub fn read_pair<'a>(line: &[u8], bytes: &'a mut [u8]) -> Option<Pair<'a>> {
    Some(Pair {
        plan: read_plan(line, bytes)?,
        source: read_source(line)?,
        dest: read_destination(line)?,
    })
}

// Reads the field `room=`: that many bytes of `output` are lent to a call.
pub fn read_room<'a>(line: &[u8], output: &'a mut [u8]) -> Option<&'a mut [u8]> {
    let room: u64 = decimal::read_as(field::value(line, b"room="))?;
    output.get_mut(..usize::try_from(room).ok()?)
}
