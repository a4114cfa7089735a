// Three bytes, one for each dimension, and extents and wrap as fields.
use shape::Shape;
use text::writer::Writer;
use text::{decimal, field};

// Reads three bytes `a,b,c`.
pub fn read_three(s: &[u8]) -> Option<[u8; 3]> {
    let mut parts = s.split(|b| *b == b',').map(decimal::read_as::<u8>);
    let three = [parts.next()??, parts.next()??, parts.next()??];
    parts.next().is_none().then_some(three)
}

// Writes a field of three bytes; `key` ends with its `=`.
pub fn put_three(writer: &mut Writer, key: &[u8], [x, y, z]: [u8; 3]) {
    writer.field(key, u64::from(x));
    writer.field(b",", u64::from(y));
    writer.field(b",", u64::from(z));
}

// Reads the fields `extents=a,b,c` and `wrap=n`.
pub fn read_shape(line: &[u8]) -> Option<Shape> {
    let [x, y, z] = read_three(field::value(line, b"extents="))?;
    let wrap = decimal::read_as(field::value(line, b"wrap="))?;
    Some(Shape { x, y, z, wrap })
}

// Writes the fields `extents` and `wrap`.
pub fn put_shape(writer: &mut Writer, shape: Shape) {
    put_three(writer, b" extents=", [shape.x, shape.y, shape.z]);
    writer.field(b" wrap=", u64::from(shape.wrap));
}
