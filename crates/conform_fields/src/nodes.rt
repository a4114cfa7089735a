// A node, a route's ends and a direction as fields.
use text::{decimal, field};

// Reads the field `node=`.
pub fn read_node(line: &[u8]) -> Option<u16> {
    decimal::read_as(field::value(line, b"node="))
}

// Reads the field `source=`.
pub fn read_source(line: &[u8]) -> Option<u16> {
    decimal::read_as(field::value(line, b"source="))
}

// Reads the field `destination=`.
pub fn read_destination(line: &[u8]) -> Option<u16> {
    decimal::read_as(field::value(line, b"destination="))
}

// Reads the field `direction=`.
pub fn read_direction(line: &[u8]) -> Option<u8> {
    decimal::read_as(field::value(line, b"direction="))
}
