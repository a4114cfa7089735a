// Lists of faults as text: `node:kind,node:kind`, `-` for none.
use conform_fields::lists::put_comma;
use plan::Fault;
use plan_value::Plan;
use text::decimal;
use text::part::{after, before};
use text::writer::Writer;

fn fault(s: &[u8]) -> Option<Fault> {
    Some(Fault {
        node: decimal::read_as(before(s, b':'))?,
        kind: decimal::read_as(after(s, b':'))?,
    })
}

// The plan, which has no faults, with those of `s`. Of more than 256 it keeps the count, which writing declines.
pub fn with_faults(bare: Plan, s: &[u8]) -> Option<Plan> {
    let mut plan = bare;
    if s == b"-".as_slice() {
        return Some(plan);
    }
    for (i, text) in s.split(|b| *b == b',').enumerate() {
        let next = fault(text)?;
        if let Some(place) = plan.faults.get_mut(i) {
            *place = next;
        }
        plan.count = plan.count.saturating_add(1);
    }
    Some(plan)
}

// Writes the field `faults` of a plan.
pub fn put_faults(writer: &mut Writer, plan: &Plan) {
    writer.text(b" faults=");
    if plan.count == 0 {
        writer.byte(b'-');
    }
    for (i, fault) in plan.faults.iter().take(plan.count as usize).enumerate() {
        put_comma(writer, i);
        writer.number(u64::from(fault.node));
        writer.field(b":", u64::from(fault.kind));
    }
}
