// Files by their names, which are bytes. The library opens a name of UTF-8 alone, so another one is a name that cannot be opened.
ghost use Rattle.std.specs.Prelude.{◌≤◌, length, IfOk};

use crate::failure::Failure;
use crate::input::read_full;
use std::fs::File;
use std::rt::Files;
use std::str;

// The file to be read.
pub fn open<'a, R: Files>(rt: &R, name: &'a [u8]) -> Result<R::File, Failure<'a>> {
    str::from_utf8(name)
        .ok()
        .and_then(|name| File::open(rt, name).ok())
        .ok_or(Failure::CannotRead(name))
}

// Reads the front of a file into the bytes, and answers how many there are.
pub fn read_front<'a>(
    rt: &impl Files,
    name: &'a [u8],
    bytes: &mut [u8],
) -> Result<usize, Failure<'a>>
    ensures { IfOk result (λ n. n ≤ length bytes.new) }
{
    let mut file = open(rt, name)?;
    Ok(read_full(&mut file, bytes))
}
