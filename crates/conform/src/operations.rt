// The answer to a test case, which is one line: the operation that its first word names is asked.
use conform_planning::{listing_cases, pair_cases, sheet_cases};
use conform_runs::run_cases;
use conform_sheets::{dead_cases, plan_cases, route_cases, writing_cases};
use conform_stepper::{step, walk};
use text::field;
use text::part::front;
use text::scan::find_text;
use text::writer::Writer;

// Writes what the operation that the first word names answers. None where there is no such operation, or the line cannot be read.
fn operation(given: &[u8], writer: &mut Writer) -> Option<()> {
    match field::first_word(given) {
        b"step" => step::answer(given, writer),
        b"walk" => walk::answer(given, writer),
        b"takeback" => step::answer_back(given, writer),
        b"plan" => plan_cases::answer_read(given, writer),
        b"weights" => plan_cases::answer_weights(given, writer),
        b"planback" => plan_cases::answer_back(given, writer),
        b"planwrite" => plan_cases::answer_write(given, writer),
        b"dead" => dead_cases::answer_dead(given, writer),
        b"masks" => dead_cases::answer_masks(given, writer),
        b"lookup" => route_cases::answer_lookup(given, writer),
        b"back" => writing_cases::answer_back(given, writer),
        b"convert" => writing_cases::answer_convert(given, writer),
        b"lost" => writing_cases::answer_lost(given, writer),
        b"pair" => pair_cases::answer(given, writer),
        b"sheet" => sheet_cases::answer(given, writer),
        b"listing" => listing_cases::answer(given, writer),
        b"run" | b"runback" => run_cases::answer_pair(given, writer),
        b"sheetrun" => run_cases::answer_sheet(given, writer),
        _ => None,
    }
}

// Writes the given part of a line, which ends before ' => ', then ' => ', the answer and a newline. Of an answer that ends before it is whole nothing is kept.
pub(crate) fn answer<'a>(line: &[u8], out: &'a mut [u8]) -> &'a [u8] {
    let given = front(line, find_text(line, b" => "));
    let mut writer = Writer::new(out);
    writer.text(given);
    writer.text(b" => ");
    let at = writer.at;
    if operation(given, &mut writer).is_none() {
        writer.at = writer.at.min(at);
        writer.text(b"unreadable");
    }
    writer.byte(b'\n');
    writer.written()
}

// Writes the answer to a line that is too long to be held, of which `start` is as much as is held.
pub(crate) fn too_long<'a>(start: &[u8], out: &'a mut [u8]) -> &'a [u8] {
    let mut writer = Writer::new(out);
    writer.text(start);
    writer.text(b" => unreadable\n");
    writer.written()
}
