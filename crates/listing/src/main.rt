// The listing program: reads a two-byte source, then a plan sheet, on standard input, and prints the listing.
#![tactic(auto)]

use listing_text::{INPUT_BYTES, TEXT_BYTES, listing};
use program::input::read_full;
use program::say;
use std::io::Read;
use text::part::front;

// Reads some of the input, and answers how many bytes came.
fn skip_some(input: &mut impl Read) -> usize {
    let mut rest = [0u8; 4096];
    read_full(input, &mut rest)
}

// Reads the input to its end. A proved loop has to end, and nothing says that the input does. So it counts its turns, up to a number that no run uses up.
fn skip_rest(input: &mut impl Read) {
    for _ in 0..u64::MAX {
        if skip_some(input) == 0 {
            return;
        }
    }
}

fn print(rt: &impl Print, text: &[u8; TEXT_BYTES], length: usize) {
    say::text(rt, front(text, length));
}

fn main(rt: HostRuntime) {
    let mut stdin = rt.stdin();
    let mut input = [0u8; INPUT_BYTES];
    let size = read_full(&mut stdin, &mut input);
    skip_rest(&mut stdin);
    let mut text = [0u8; TEXT_BYTES];
    let length = listing(&input, size, &mut text);
    print(&rt, &text, length);
}
