// Answers each line of the standard input, a test case, by a line of the standard output: the case and what the planner answers.
#![tactic(auto)]

mod answer_lines;
mod operations;

use answer_lines::answer_all;

const LINE_BYTES: usize = 131072;

// Room for a line and its answer, of which a listing's text is the longest.
const OUT_BYTES: usize = LINE_BYTES + 98304;

fn main(rt: HostRuntime) {
    let mut buffer = [0u8; LINE_BYTES];
    let mut out = [0u8; OUT_BYTES];
    answer_all(&mut rt.stdin(), &mut rt.stdout(), &mut buffer, &mut out);
}
