// The operation `lookup`: a destination's entry, as a part of the lent sheet, and its route.
use choice::Outcome;
use conform_fields::answers::put_number;
use conform_fields::leg_fields::put_route;
use conform_fields::nodes::read_destination;
use conform_fields::sheets::{PLAN_BYTES, ROUTE_BYTES, read_plan, read_routes};
use routes::layout::{entry_place, entry_size, format_in, source_in};
use routes::lookup::{find_entry, lookup};
use routes::route::route;
use text::part::part;
use text::writer::Writer;

// Writes the field `part`: where the entry stands, and where it ends. An empty part is at the sheet's start. An entry that is not those bytes of the sheet has no place.
fn put_part(writer: &mut Writer, sheet: &[u8], dest: u16, entry: &[u8]) {
    if entry.is_empty() {
        writer.text(b"part=0:0");
        return;
    }
    let format = format_in(sheet);
    let start = entry_place(format, find_entry(sheet, dest).unwrap_or(0));
    let end = start + entry_size(format);
    if part(sheet, start, end) != entry {
        writer.text(b"part=?");
        return;
    }
    writer.field(b"part=", start as u64);
    writer.field(b":", end as u64);
}

// Writes the answer to a line `lookup plan=.. sheet=.. destination=..`: of a route the fields `source` and `legs` too.
pub fn answer_lookup(line: &[u8], writer: &mut Writer) -> Option<()> {
    let mut plan = [0u8; PLAN_BYTES];
    let mut sheet = [0u8; ROUTE_BYTES];
    let plan = read_plan(line, &mut plan)?;
    let sheet = read_routes(line, &mut sheet)?;
    let dest = read_destination(line)?;
    put_part(writer, sheet, dest, lookup(plan, sheet, dest));
    let outcome = route(plan, sheet, dest);
    writer.byte(b' ');
    put_number(writer, outcome.number());
    if let Outcome::Given(route, _) = outcome {
        writer.field(b" source=", u64::from(source_in(sheet)));
        writer.text(b" legs=");
        put_route(writer, dest, route);
    }
    Some(())
}
