// Lists of values as text, with a comma between two.
use text::writer::Writer;

// A comma before each value but the first; `i` is the value's number, from 0 on.
pub fn put_comma(writer: &mut Writer, i: usize) {
    if 0 < i {
        writer.byte(b',');
    }
}
