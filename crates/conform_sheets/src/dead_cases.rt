// The operations `dead` and `masks`: what a plan's faults make dead.
use conform_fields::nodes::{read_direction, read_node};
use conform_fields::sheets::{PLAN_BYTES, read_plan};
use dead::{dead_masks, is_dead_link, is_dead_node};
use machine::node::count;
use plan::shape_of;
use text::part::front;
use text::writer::Writer;

// Writes the answer to a line `dead plan=.. node=.. direction=..`: whether the node is dead, and the link leaving it in the direction.
pub fn answer_dead(line: &[u8], writer: &mut Writer) -> Option<()> {
    let mut bytes = [0u8; PLAN_BYTES];
    let plan = read_plan(line, &mut bytes)?;
    let node = read_node(line)?;
    let direction = read_direction(line)?;
    writer.field(b"node=", u64::from(is_dead_node(plan, node)));
    writer.field(b" link=", u64::from(is_dead_link(plan, node, direction)));
    Some(())
}

// Writes the answer to a line `masks plan=..`: a byte for each node of the plan, with a bit for each direction whose link is dead.
pub fn answer_masks(line: &[u8], writer: &mut Writer) -> Option<()> {
    let mut bytes = [0u8; PLAN_BYTES];
    let plan = read_plan(line, &mut bytes)?;
    let masks = dead_masks(plan);
    writer.text(b"masks=");
    writer.hex(front(&masks, usize::from(count(shape_of(plan)))));
    Some(())
}
