// Looking up a destination: its entry as the very bytes of the lent sheet, seven of version 3, five of version 2. A call takes the plan, the sheet and the
// destination one by one, as C lends them (`nafthurm_lookup`).
ghost use Rattle.std.specs.Prelude.{◌≡◌, ◌+◌, ◌≤◌, length};
ghost use Rattle.numbers.specs.Refusals.{answer_number};
ghost use Rattle.plan.specs.Checks.{large};
ghost use Rattle.routes.specs.Lookup.{find_entry, lookup_error, PartOf, part_start, part_length, part_for};

use crate::checks::check;
use crate::layout::{count_in, entry_in, entry_place, entry_size, format_in};
use machine::node::is_node;
use numbers::Refusal;
use plan::layout::shape_in;

// The plan's checks, 13, then 9.
#[tactic(auto, using(theory::proofs::Checks::declining), unfolding(crate::specs::Lookup::lookup_error))]
pub fn check_lookup(plan: &[u8], sheet: &[u8], dest: u16) -> Result<(), Refusal>
    ensures { answer_number result ≡ lookup_error large plan.now sheet.now dest }
{
    check(plan, sheet)?;
    if !is_node(shape_in(plan), dest) {
        return Err(Refusal::NodeOutside);
    }
    Ok(())
}

// The number of the first entry for a destination.
pub fn find_entry(sheet: &[u8], dest: u16) -> Option<u16>
    ensures { result ≡ find_entry sheet.now dest }
{
    (0..count_in(sheet)).find(|i| entry_in(sheet, *i).dest == dest)
}

// Where the bytes of an entry stand in the lent sheet, as `nafthurm_lookup` gives it.
#[derive(Clone, Copy)]
pub struct Part {
    pub start: usize,
    pub size: usize,
}

// Of the destination's entry; none, at the sheet's start, where it is not listed or the lookup is declined.
pub fn entry_part(plan: &[u8], sheet: &[u8], dest: u16) -> Part
    ensures value { result ≡ part_for large plan.now sheet.now dest }
    ensures size_in_bounds { result.start + result.size ≤ length sheet.now }
{
    let none = Part { start: 0, size: 0 };
    if check_lookup(plan, sheet, dest).is_err() {
        return none;
    }
    let Some(i) = find_entry(sheet, dest) else {
        return none;
    };
    let format = format_in(sheet);
    Part {
        start: entry_place(format, i),
        size: entry_size(format),
    }
}

// The entry as its very bytes in the lent sheet.
pub fn lookup<'a>(plan: &[u8], sheet: &'a [u8], dest: u16) -> &'a [u8]
    ensures { PartOf sheet.entry result (part_start large plan.now sheet.now dest) (part_length large plan.now sheet.now dest) }
{
    let part = entry_part(plan, sheet, dest);
    let start = part.start;
    let end = start + part.size;
    &sheet[start..end]
}
