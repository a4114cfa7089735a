// Where the parts of a route sheet stand, by its format. Byte 0 is the version and bytes 1-2 the length of what follows, as in every sheet. These calls read
// any bytes, also of a sheet that a check declines; a byte past the end reads as 0.
ghost use Rattle.std.specs.Prelude.{◌≡◌, ◌+◌, ◌*◌, ◌-◌, ◌<◌};
ghost use Rattle.routes.specs.Layout.{one_via, format_of, source, entry_count, entry_size, entry_place, size_after, kind_byte, kind_in, second_via, entry_in, entry_at};

use crate::kinds::from_old;
use sheet::head::version_in;
use sheet::{byte_at, word_at};

// What a version lays down: its byte, and how many vias an entry holds. With one via, of versions 1 and 2, an entry has five bytes; with two seven.
#[derive(Clone, Copy)]
pub struct Format {
    pub version: u8,
    pub vias: u8,
}

// Read by the converter alone.
pub const FIRST_VERSION: u8 = 1;

pub const SECOND_VERSION: u8 = 2;

// The one that is written.
pub const VERSION: u8 = 3;

pub const ENTRIES_AT: usize = 7;

// The size of an entry that is written.
pub const ENTRY_SIZE: usize = 7;

// The format of the one that is written.
const THIRD: Format = Format {
    version: VERSION,
    vias: 2,
};

// One for each node but the source.
pub const MOST_ENTRIES: usize = 4095;

// The bytes of the largest sheet.
pub const SHEET_BYTES: usize = 28672;

// An entry has the kind of version 3, whatever sheet it was read from: a byte and no enum, since a lent sheet may hold any. A via that it has not is 0.
#[derive(Clone, Copy)]
pub struct Entry {
    pub dest: u16,
    pub kind: u8,
    pub via: u16,
    pub second: u16,
}

// The format of version 1 or 2.
pub fn one_via(version: u8) -> Format
    ensures { result ≡ one_via version }
{
    Format {
        version: version,
        vias: 1,
    }
}

// The format in which a sheet is read: version 2's, or else version 3's.
pub fn format_in(sheet: &[u8]) -> Format
    ensures { result ≡ format_of sheet.now }
{
    if version_in(sheet) == SECOND_VERSION {
        one_via(SECOND_VERSION)
    } else {
        THIRD
    }
}

pub fn source_in(sheet: &[u8]) -> u16
    ensures { result ≡ source sheet.now }
{
    word_at(sheet, 3) as u16
}

pub fn count_in(sheet: &[u8]) -> u16
    ensures { result ≡ entry_count sheet.now }
{
    word_at(sheet, 5) as u16
}

pub fn entry_size(format: Format) -> usize
    ensures { result ≡ entry_size format }
{
    3 + 2 * (format.vias as usize)
}

// Where entry number i stands, from 0.
pub fn entry_place(format: Format, i: u16) -> usize
    ensures value { result ≡ entry_place format i }
    ensures upper_bound { result < 67108864 }
{
    ENTRIES_AT + (3 + 2 * (format.vias as usize)) * (i as usize)
}

// The length of what follows the length field, with this many entries.
pub fn size_after(format: Format, count: u16) -> usize
    ensures { result ≡ size_after format count }
{
    ENTRIES_AT - 3 + (3 + 2 * (format.vias as usize)) * (count as usize)
}

// The kind byte of entry number i. The format stands beside the sheet, since the converter reads a sheet in another than its own.
pub fn kind_byte(sheet: &[u8], format: Format, i: u16) -> u8
    ensures { result ≡ kind_byte format sheet.now i }
{
    byte_at(sheet, entry_place(format, i) + 2)
}

fn kind_in(format: Format, kind: u8) -> u8
    ensures { result ≡ kind_in format kind }
{
    if format.vias == 1 {
        from_old(kind)
    } else {
        kind
    }
}

fn second_via(sheet: &[u8], format: Format, i: u16) -> u16
    ensures { result ≡ second_via format sheet.now (entry_place format i) }
{
    if format.vias == 1 {
        return 0;
    }
    word_at(sheet, entry_place(format, i) + 5) as u16
}

// Entry number i, from 0, in a format.
pub fn entry_by(sheet: &[u8], format: Format, i: u16) -> Entry
    ensures { result ≡ entry_in format sheet.now i }
{
    let at = entry_place(format, i);
    Entry {
        dest: word_at(sheet, at) as u16,
        kind: kind_in(format, byte_at(sheet, at + 2)),
        via: word_at(sheet, at + 3) as u16,
        second: second_via(sheet, format, i),
    }
}

// In the sheet's own.
pub fn entry_in(sheet: &[u8], i: u16) -> Entry
    ensures { result ≡ entry_at sheet.now i }
{
    entry_by(sheet, format_in(sheet), i)
}
