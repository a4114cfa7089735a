// The operation `sheet`: a route sheet is written by planning from a source, into lent output filled with EE.
use conform_fields::answers::put_written;
use conform_fields::nodes::read_source;
use conform_fields::sheets::{PLAN_BYTES, ROUTE_BYTES, read_plan, read_room};
use planner::sheets::write_sheet;
use text::writer::Writer;

// Writes the answer to a line `sheet plan=.. source=.. room=..`.
pub fn answer(line: &[u8], writer: &mut Writer) -> Option<()> {
    let mut bytes = [0u8; PLAN_BYTES];
    let mut output = [0xEEu8; ROUTE_BYTES];
    let plan = read_plan(line, &mut bytes)?;
    let source = read_source(line)?;
    let lent = read_room(line, &mut output)?;
    let written = write_sheet(plan, source, lent);
    put_written(writer, written, lent);
    Some(())
}
