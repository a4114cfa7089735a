// The bytes of a route sheet, of at most 4,095 entries.
ghost use Rattle.std.specs.Prelude.{ℕ, ◌≡◌, ◌+◌, ◌≤◌, ◌<◌, length};
ghost use Rattle.sheet.specs.Bytes.{list_from};
ghost use Rattle.sheet.specs.Output.{out_after};
ghost use Rattle.routes.specs.declared.layout.Entry.{Entry};
ghost use Rattle.routes.specs.Layout.{written, entry_size, entry_place, entry_count, most_entries};
ghost use Rattle.route_value.specs.Steps.{put_head, put_entry};
ghost use Rattle.route_value.specs.Writing.{sheet_bytes, sheet_of, rewritten};

use crate::reading::Routes;
use routes::Entry;
use routes::layout::{ENTRIES_AT, ENTRY_SIZE, VERSION, count_in, entry_in, source_in};
use sheet::{lower, put_byte, put_word, upper};

pub fn put_head(bytes: &mut [u8], source: u16, count: u16)
    requires { count ≤ most_entries }
    ensures { bytes.new ≡ put_head bytes.old source count }
{
    put_byte(bytes, 0, VERSION);
    put_word(
        bytes,
        1,
        (ENTRIES_AT - 3 + ENTRY_SIZE * (count as usize)) as u16,
    );
    put_word(bytes, 3, source);
    put_word(bytes, 5, count);
}

pub fn put_entry(bytes: &mut [u8], i: usize, e: Entry)
    requires { entry_place written i + entry_size written ≤ length bytes.old }
    ensures { bytes.new ≡ put_entry bytes.old i e }
{
    let at = ENTRIES_AT + ENTRY_SIZE * i;
    bytes[at] = upper(e.dest);
    bytes[at + 1] = lower(e.dest);
    bytes[at + 2] = e.kind;
    bytes[at + 3] = upper(e.via);
    bytes[at + 4] = lower(e.via);
    bytes[at + 5] = upper(e.second);
    bytes[at + 6] = lower(e.second);
}

// The sheet from a source with `count` entries, each by its number, at the front of `bytes`; what follows it there is untouched.
fn encode_by<F: Fn(u16) -> Entry>(source: u16, count: u16, entry: F, bytes: &mut [u8])
    requires count_le_most_entries { count ≤ most_entries }
    requires count_in_bounds { entry_place written count ≤ length bytes.old }
    requires entry_pre { (i : ℕ) → i < count → F.pre entry i }
    ensures { (f : ℕ → Entry) → ((i : ℕ) (e : Entry) → i < count → F.post entry i e → e ≡ f i) → bytes.new ≡ out_after 0 (sheet_bytes source (list_from f 0 count)) bytes.old }
{
    put_head(bytes, source, count);
    for i in 0..count {
        put_entry(bytes, i as usize, entry(i));
    }
}

// The sheet of routes.
pub fn encode(routes: Routes, bytes: &mut [u8])
    requires count_le_most_entries { routes.count ≤ most_entries }
    requires count_in_bounds { entry_place written routes.count ≤ length bytes.old }
    ensures { bytes.new ≡ out_after 0 (sheet_of routes) bytes.old }
{
    let entries = &routes.entries;
    encode_by(routes.source, routes.count, |i| entries[i as usize], bytes);
}

// The entries of an accepted sheet, of either version, likewise.
pub fn encode_again(sheet: &[u8], bytes: &mut [u8])
    requires sheet_bound { entry_count sheet.now ≤ most_entries }
    requires sheet_in_bounds { entry_place written (entry_count sheet.now) ≤ length bytes.old }
    ensures { bytes.new ≡ out_after 0 (rewritten sheet.now) bytes.old }
{
    encode_by(
        source_in(sheet),
        count_in(sheet),
        |i| entry_in(sheet, i),
        bytes,
    );
}
