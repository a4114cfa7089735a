// A route sheet made in place, in lent bytes: its entries one by one, then its head.
ghost use Rattle.route_value.specs.Making.{Added, PutMade};

use crate::encode::{put_entry, put_head};
use numbers::Refusal;
use routes::Entry;
use routes::layout::{ENTRIES_AT, ENTRY_SIZE, MOST_ENTRIES};
use sheet::output::put_sheet;

// Entry number i behind those before it. Nothing where a sheet has no such entry, or the bytes have no room for it.
pub fn set_entry(bytes: &mut [u8], i: usize, e: Entry)
    ensures { Added bytes.old i e bytes.new }
{
    if MOST_ENTRIES <= i {
        return;
    }
    if bytes.len() < ENTRIES_AT + ENTRY_SIZE * i + ENTRY_SIZE {
        return;
    }
    put_entry(bytes, i, e);
}

// The sheet of the first `count` entries that the bytes hold, with no plan to check it by: 13 for more entries than a sheet or the bytes hold, then 12.
pub fn put_made(source: u16, count: u16, bytes: &mut [u8], out: &mut [u8]) -> Result<usize, Refusal>
    ensures { PutMade source count bytes.old out.old result out.new }
{
    let n = count as usize;
    if MOST_ENTRIES < n {
        return Err(Refusal::WrongRouteSheet);
    }
    let size = ENTRIES_AT + ENTRY_SIZE * n;
    if bytes.len() < size {
        return Err(Refusal::WrongRouteSheet);
    }
    put_head(bytes, source, count);
    put_sheet(&bytes[..size], Ok(()), out)
}
