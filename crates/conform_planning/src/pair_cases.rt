// The operation `pair`: a pair is planned.
use choice::Outcome;
use conform_fields::answers::put_number;
use conform_fields::leg_fields::put_route;
use conform_fields::sheets::{PLAN_BYTES, read_pair};
use planner::pair::pair;
use text::writer::Writer;

// Writes the answer to a line `pair plan=.. source=.. destination=..`: of a route the fields `legs` and `length` too.
pub fn answer(line: &[u8], writer: &mut Writer) -> Option<()> {
    let mut bytes = [0u8; PLAN_BYTES];
    let given = read_pair(line, &mut bytes)?;
    let outcome = pair(given.plan, given.source, given.dest);
    put_number(writer, outcome.number());
    if let Outcome::Given(route, length) = outcome {
        writer.text(b" legs=");
        put_route(writer, given.dest, route);
        writer.field(b" length=", u64::from(length));
    }
    Some(())
}
