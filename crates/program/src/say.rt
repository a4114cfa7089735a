// What a program says, on standard output. Where that cannot be written, it goes on.
use crate::failure::Failure;

pub fn text(rt: &impl Print, text: &[u8]) {
    let _ = rt.write_all(text);
}

// A path has the bytes that the program was called with, which may be no UTF-8.
fn cannot(rt: &impl Print, what: &[u8], path: &[u8]) {
    text(rt, what);
    text(rt, path);
    text(rt, b"\n");
}

pub fn failed(rt: &impl Print, failure: Failure<'_>) {
    match failure {
        Failure::CannotRead(path) => cannot(rt, b"cannot read ", path),
        Failure::CannotWrite(path) => cannot(rt, b"cannot write ", path),
        Failure::Refused(refusal) => {
            let _ = println!(rt; "refused {}", refusal.number());
        }
    }
}
