// Reading the sheets of a file, one behind the other. Each says its own length.
ghost use Rattle.std.specs.Prelude.{◌≤◌, length};

use program::input::read_full;
use sheet::word_at;
use std::io::Read;

// The bytes of the longest sheet that a length field can say.
pub const SHEET_BYTES: usize = 65538;

// Reads the next sheet, or what there is of it, and answers how many bytes there are: 3 of its head, and those behind it.
fn read_next(file: &mut impl Read, room: &mut [u8; SHEET_BYTES]) -> usize
    ensures { result ≤ 65538 }
{
    let head = read_full(file, &mut room[..3]);
    if head < 3 {
        return head;
    }
    let behind = word_at(room, 1);
    3 + read_full(file, &mut room[3..3 + behind])
}

// The next sheet, or what there is of it; no bytes where the file ends.
pub fn read_sheet<'a>(file: &mut impl Read, room: &'a mut [u8; SHEET_BYTES]) -> &'a [u8]
    ensures { length result.now ≤ 65538 }
{
    let size = read_next(file, room);
    &room[..size]
}

// Whether the file was read to its end: a read that failed looks like an end before.
pub fn is_ended(file: &mut impl Read) -> bool {
    let mut more = [0u8; 1];
    matches!(file.read(&mut more), Ok(0))
}
