// The operations `run`, `runback` and `sheetrun`: the new packet of a planned route is given to a list of calls under the plan's extents and wrap. The
// route is what planning a pair gives, or what the sheet that planning from the source writes says of the destination.
use crate::along_route::put_run;
use choice::Outcome;
use conform_fields::answers::put_number;
use conform_fields::sheets::{PLAN_BYTES, ROUTE_BYTES, read_pair};
use packet::Packet;
use plan::shape_of;
use planner::pair::pair;
use planner::sheets::write_sheet;
use routes::lookup::lookup;
use routes::route::route;
use text::part::front;
use text::writer::Writer;

// Writes the answer to a line `run plan=.. source=.. destination=.. calls=..`: the fields of the run, or the field `number` of a refused pair; `runback` is
// the same.
pub fn answer_pair(line: &[u8], writer: &mut Writer) -> Option<()> {
    let mut bytes = [0u8; PLAN_BYTES];
    let given = read_pair(line, &mut bytes)?;
    match pair(given.plan, given.source, given.dest) {
        Outcome::Given(route, _) => {
            let packet = Packet::new(given.source, given.dest, route);
            put_run(line, shape_of(given.plan), packet, writer)
        }
        Outcome::Refused(refusal) => {
            put_number(writer, refusal.number());
            Some(())
        }
    }
}

// Writes the answer to a line `sheetrun plan=.. source=.. destination=.. calls=..`: the number of the lookup, and of a route the fields `size` and `entry`,
// which is the looked-up entry's bytes, and those of the run; or the field `number` of a refused sheet.
pub fn answer_sheet(line: &[u8], writer: &mut Writer) -> Option<()> {
    let mut bytes = [0u8; PLAN_BYTES];
    let mut lent = [0u8; ROUTE_BYTES];
    let given = read_pair(line, &mut bytes)?;
    let size = match write_sheet(given.plan, given.source, &mut lent) {
        Ok(size) => size,
        Err(refusal) => {
            put_number(writer, refusal.number());
            return Some(());
        }
    };
    let sheet = front(&lent, size);
    let outcome = route(given.plan, sheet, given.dest);
    put_number(writer, outcome.number());
    let Outcome::Given(route, _) = outcome else {
        return Some(());
    };
    writer.field(b" size=", sheet.len() as u64);
    writer.text(b" entry=");
    writer.hex(lookup(given.plan, sheet, given.dest));
    writer.byte(b' ');
    let packet = Packet::new(given.source, given.dest, route);
    put_run(line, shape_of(given.plan), packet, writer)
}
