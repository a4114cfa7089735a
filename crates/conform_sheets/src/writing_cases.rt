// The operations `back`, `convert` and `lost`: a route sheet is written back or converted into lent output filled with EE; the first entry that cannot be
// kept.
use conform_fields::answers::{number_of, put_number, put_written};
use conform_fields::sheets::{PLAN_BYTES, ROUTE_BYTES, read_plan, read_room, read_routes};
use conversion::convert;
use route_value::write_back;
use text::writer::Writer;

// The call that writes.
#[derive(Clone, Copy)]
enum Call {
    Back,
    Convert,
}

// Writes the answer to a line `.. plan=.. sheet=.. room=..`.
fn answer(call: Call, line: &[u8], writer: &mut Writer) -> Option<()> {
    let mut plan = [0u8; PLAN_BYTES];
    let mut sheet = [0u8; ROUTE_BYTES];
    let mut output = [0xEEu8; ROUTE_BYTES];
    let plan = read_plan(line, &mut plan)?;
    let sheet = read_routes(line, &mut sheet)?;
    let lent = read_room(line, &mut output)?;
    let written = match call {
        Call::Back => write_back(plan, sheet, lent),
        Call::Convert => convert(plan, sheet, lent).written,
    };
    put_written(writer, written, lent);
    Some(())
}

pub fn answer_back(line: &[u8], writer: &mut Writer) -> Option<()> {
    answer(Call::Back, line, writer)
}

pub fn answer_convert(line: &[u8], writer: &mut Writer) -> Option<()> {
    answer(Call::Convert, line, writer)
}

// Writes the answer to a line `lost plan=.. sheet=..`: the converter's number, with room enough, and the first entry that cannot be kept.
pub fn answer_lost(line: &[u8], writer: &mut Writer) -> Option<()> {
    let mut plan = [0u8; PLAN_BYTES];
    let mut sheet = [0u8; ROUTE_BYTES];
    let mut output = [0xEEu8; ROUTE_BYTES];
    let plan = read_plan(line, &mut plan)?;
    let sheet = read_routes(line, &mut sheet)?;
    let converted = convert(plan, sheet, &mut output);
    put_number(writer, number_of(&converted.written));
    writer.field(b" entry=", u64::from(converted.entry));
    Some(())
}
