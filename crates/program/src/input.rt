// Reading the bytes of a file.
ghost use Rattle.std.specs.Prelude.{◌≤◌, length};

use std::io::Read;

// A read says how much came, so no index is counted. What was read stays a size, since contracts speak of buffer and size (`ReadInto`).
// Reads until the buffer is full, the file ends or a read fails, and answers how many bytes there are at its start.
pub fn read_full(file: &mut impl Read, bytes: &mut [u8]) -> usize
    ensures { result ≤ length bytes.new }
{
    let mut done = 0;
    while done < bytes.len() {
        let more = file.read(&mut bytes[done..]).unwrap_or(0);
        if more == 0 {
            break;
        }
        done += more;
    }
    done
}
