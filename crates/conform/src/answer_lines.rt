// The lines of an input, each answered by a line of the output. A read that fails is the input's end, and a write that fails is passed over.
ghost use Rattle.std.specs.Prelude.{◌+◌, ◌≤◌, length, IfSome};

use crate::operations;
use std::io::{Read, Write};
use text::part::front;

fn write_line<W: Write>(output: &mut W, line: &[u8], out: &mut [u8]) {
    let _ = output.write_all(operations::answer(line, out));
}

fn write_too_long<W: Write>(output: &mut W, start: &[u8], out: &mut [u8]) {
    let _ = output.write_all(operations::too_long(start, out));
}

// Answers the lines in the first `filled` bytes, and tells how many are kept for the next read: those behind the last newline, at the buffer's front. A line that
// fills the buffer is answered at once. None where the rest of such a line is still to come, which gets no answer: where `skip`, the first line is one.
fn answer_filled<W: Write>(
    output: &mut W,
    buffer: &mut [u8],
    filled: usize,
    skip: bool,
    out: &mut [u8],
) -> Option<usize>
    requires { filled ≤ length buffer.old }
    ensures { IfSome result (λ n. n ≤ length buffer.new) }
{
    let held = &buffer[..filled];
    let Some(last) = held.iter().rposition(|b| *b == b'\n') else {
        if skip {
            return None;
        }
        if filled == buffer.len() {
            write_too_long(output, buffer, out);
            return None;
        }
        return Some(filled);
    };
    for line in held[..last].split(|b| *b == b'\n').skip(usize::from(skip)) {
        write_line(output, line, out);
    }
    buffer.copy_within(last + 1..filled, 0);
    Some(filled - (last + 1))
}

// Reads once behind the first `held` bytes, and answers how many came.
fn read_more<R: Read>(input: &mut R, buffer: &mut [u8], held: usize) -> usize
    requires { held ≤ length buffer.old }
    ensures { held + result ≤ length buffer.new }
{
    input.read(&mut buffer[held..]).unwrap_or(0)
}

// Answers the lines of the input. A line that does not fit into `buffer`, with its newline, is unreadable; an answer is cut to what fits into `out`.
//
// A proved loop has to end, and nothing says that the input does. So it counts its turns, up to a number that no run reaches.
pub(crate) fn answer_all<R: Read, W: Write>(
    input: &mut R,
    output: &mut W,
    buffer: &mut [u8],
    out: &mut [u8],
) {
    let mut kept = Some(0);
    for _ in 0..u64::MAX {
        let held = kept.unwrap_or(0);
        let got = read_more(input, buffer, held);
        if got == 0 {
            // A last line that has no newline, if there is one.
            if 0 < held {
                write_line(output, front(buffer, held), out);
            }
            return;
        }
        kept = answer_filled(output, buffer, held + got, kept.is_none(), out);
    }
}
