// What a program is called with, as the bytes that the system has: `env::args` refuses all where one is not UTF-8.
ghost use Rattle.std.specs.Prelude.{◌≤◌, length, IfSome};

use std::env::FillError;
use std::rt::Env;

// The bytes of the longest path, and more.
pub const PATH_BYTES: usize = 4096;

// Puts the argument at a place, counted from 1, at the start of `bytes`, and answers it; `None` where there is none, where it is empty or does not fit.
pub fn read<'a>(rt: &impl Env, place: usize, bytes: &'a mut [u8]) -> Option<&'a [u8]>
    ensures { IfSome result (λ r. length r.now ≤ length bytes.old) }
{
    let size = rt.arg(place, bytes).unwrap_or(0);
    let argument = &bytes[..size];
    (size != 0).then_some(argument)
}

// Whether there is an argument at a place.
pub fn is_there(rt: &impl Env, place: usize) -> bool {
    let mut byte = [0u8; 1];
    !matches!(rt.arg(place, &mut byte), Err(FillError::NotPresent))
}
