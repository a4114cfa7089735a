// A part file can be made, under its whole name, however long: no contract can say so, since none says what the system gives.
use crate::failure::Failure;
use crate::part_file::PartFile;
use std::alloc::Allocator;
use std::fs::{Metadata, OpenOptions};
use std::io::Write;
use std::rt::Files;
use std::{fs, io};

// Longer than any name that the system takes.
const LONG: usize = 5000;

// Files of names of any length: the host's `long` stands for OUT, `long.part` for OUT.part, and `other` for each other name.
#[derive(Drop)]
struct LongNames<'a, R> {
    rt: &'a R,
}

fn short(name: &str) -> &'static str {
    if name.len() == LONG {
        "long"
    } else if name.len() == LONG + 5 && name.ends_with(".part") {
        "long.part"
    } else {
        "other"
    }
}

impl<R: Files> Files for LongNames<'_, R> {
    type File = R::File;

    type Dir = R::Dir;

    fn open_file(&self, how: &OpenOptions, path: &str) -> io::Result<R::File> {
        self.rt.open_file(how, short(path))
    }

    fn open_dir(&self, path: &str) -> io::Result<R::Dir> {
        self.rt.open_dir(short(path))
    }

    fn metadata(&self, path: &str) -> io::Result<Metadata> {
        self.rt.metadata(short(path))
    }

    fn symlink_metadata(&self, path: &str) -> io::Result<Metadata> {
        self.rt.symlink_metadata(short(path))
    }

    fn copy(&self, from: &str, to: &str) -> io::Result<u64> {
        self.rt.copy(short(from), short(to))
    }

    fn rename(&self, from: &str, to: &str) -> io::Result<()> {
        self.rt.rename(short(from), short(to))
    }

    fn remove_file(&self, path: &str) -> io::Result<()> {
        self.rt.remove_file(short(path))
    }

    fn create_dir(&self, path: &str) -> io::Result<()> {
        self.rt.create_dir(short(path))
    }

    fn remove_dir(&self, path: &str) -> io::Result<()> {
        self.rt.remove_dir(short(path))
    }

    fn remove_dir_all<B: Allocator>(&self, alloc: B, path: &str) -> io::Result<()> {
        self.rt.remove_dir_all(alloc, short(path))
    }
}

fn is_there(rt: &impl Files, name: &str) -> bool {
    fs::metadata(rt, name).is_ok()
}

// Writes a job for OUT, of six bytes. Answers whether OUT.part was there meanwhile and is gone, and OUT has the bytes.
fn is_done(
    rt: &impl Files,
    host: &impl Files,
    out: &[u8],
    room: &mut [u8],
    name: &str,
    part_name: &str,
) -> bool {
    let Ok(mut part) = PartFile::create(rt, out, room) else {
        return false;
    };
    let written = is_there(host, part_name) && part.file.write_all(b"sheets").is_ok();
    let done = part.finish(rt).is_ok() && !is_there(host, part_name);
    let whole = fs::metadata(host, name).is_ok_and(|file| file.len() == 6);
    written && done && whole && fs::remove_file(host, name).is_ok()
}

// Makes OUT.part and gives it up. Answers whether it was there and is gone, and OUT is not there.
fn is_given_up(rt: &impl Files, host: &impl Files, out: &[u8], room: &mut [u8]) -> bool {
    let Ok(part) = PartFile::create(rt, out, room) else {
        return false;
    };
    let made = is_there(host, "long.part");
    part.give_up(rt);
    made && !is_there(host, "long.part") && !is_there(host, "long")
}

fn is_refused(rt: &impl Files, out: &[u8], room: &mut [u8]) -> bool {
    match PartFile::create(rt, out, room) {
        Ok(part) => {
            part.give_up(rt);
            false
        }
        Err(failure) => matches!(failure, Failure::CannotWrite(name) if name == out),
    }
}

#[test]
fn a_job_has_a_name_that_the_system_takes(rt: HostRuntime) {
    assert!(rt; is_done(&rt, &rt, b"routes", &mut [0; 11], "routes", "routes.part"));
}

#[test]
fn a_job_has_a_name_of_any_length(rt: HostRuntime) {
    let names = LongNames { rt: &rt };
    let out = [b'o'; LONG];
    assert!(rt; is_done(&names, &rt, &out, &mut [0; LONG + 5], "long", "long.part"));
    assert!(rt; is_given_up(&names, &rt, &out, &mut [0; LONG + 6]));
}

// No file is made under a cut name.
#[test]
fn a_name_without_room_is_not_cut(rt: HostRuntime) {
    let names = LongNames { rt: &rt };
    let out = [b'o'; LONG];
    assert!(rt; is_refused(&names, &out, &mut [0; LONG + 4]));
    assert!(rt; !is_there(&rt, "other"));
}
