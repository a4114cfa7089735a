// A job writes to the file OUT.part, which takes the name OUT when all is written and on disk. So OUT is never part of a job, and what an interrupted job
// left is taken over by the next one for the same OUT.
ghost use Rattle.std.specs.Prelude.{◌≡◌, ◌≤◌, length, IfSome, IfOk, IfErr};
ghost use Rattle.program.specs.Part.{whole_name, part_name};
ghost use Rattle.program.specs.declared.failure.Failure.TheVariants.{CannotWrite};

use crate::failure::Failure;
use std::fs::{File, OpenFile};
use std::rt::Files;
use std::{fs, str};
use text::writer::Writer;

// The file, its name and the name that it will have.
pub struct PartFile<'a, 'n, R: Files> {
    pub file: R::File,
    name: &'n str,
    out: &'a str,
}

// Writes the name OUT.part into lent bytes, and answers it. It is cut at their end.
fn part_name<'n>(out: &[u8], room: &'n mut [u8]) -> &'n [u8]
    ensures { result.now ≡ part_name (length room.old) out.now }
{
    let mut name = Writer::new(room);
    name.text(out);
    name.text(b".part");
    name.written()
}

impl<'a, 'n, R: Files> PartFile<'a, 'n, R> {
    // The file OUT.part to be written, without what was in it; `None` also where the room does not take its whole name, so that no other file is written.
    fn create_for(rt: &R, out: &'a [u8], room: &'n mut [u8]) -> Option<Self>
        ensures room { IfSome result (λ _. length (whole_name out.now) ≤ length room.old) }
        ensures name { IfSome result (λ p. p.name.now ≡ whole_name out.now) }
        ensures out { IfSome result (λ p. p.out.now ≡ out.now) }
    {
        if room.len() < out.len() + b".part".len() {
            return None;
        }
        let name = str::from_utf8(part_name(out, room)).ok()?;
        let out = str::from_utf8(out).ok()?;
        let file = File::create(rt, name).ok()?;
        Some(PartFile { file, name, out })
    }

    // The same, with the failure that names OUT. The room has to have as many bytes as OUT, and five.
    pub fn create(rt: &R, out: &'a [u8], room: &'n mut [u8]) -> Result<Self, Failure<'a>>
        ensures room { IfOk result (λ _. length (whole_name out.now) ≤ length room.old) }
        ensures name { IfOk result (λ p. p.name.now ≡ whole_name out.now) }
        ensures out { IfOk result (λ p. p.out.now ≡ out.now) }
        ensures cannot_write { IfErr result (λ e. e ≡ CannotWrite out.entry) }
    {
        PartFile::create_for(rt, out, room).ok_or(Failure::CannotWrite(out))
    }

    // Closes the file and gives it the name OUT; removes it where that cannot be done.
    pub fn finish(self, rt: &R) -> Result<(), Failure<'a>> {
        let PartFile { file, name, out } = self;
        let on_disk = file.sync_all().is_ok();
        drop(file);
        if on_disk && fs::rename(rt, name, out).is_ok() {
            return Ok(());
        }
        let _ = fs::remove_file(rt, name);
        Err(Failure::CannotWrite(out.as_bytes()))
    }

    // Closes the file and removes it.
    pub fn give_up(self, rt: &R) {
        let PartFile { file, name, out: _ } = self;
        drop(file);
        let _ = fs::remove_file(rt, name);
    }
}
