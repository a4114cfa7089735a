// A bar that shows how far the job is, in one line of standard error: `[#########...........] 1920 of 4096 boards, 3 s left`.
ghost use Rattle.std.specs.Prelude.{◌≡◌, ◌-◌, ◌≤◌, min, max};
ghost use Rattle.sheets.specs.Bar.{marks_of, seconds_left};

use text::part::part;
use text::writer::Writer;

// The bytes of a line, and more.
const LINE_BYTES: usize = 128;

// How many of 20 marks stand for `done` of `all` boards.
#[tactic(auto, unfolding(crate::specs::Bar::marks_of))]
fn marks(done: u16, all: u16) -> usize
    ensures value { result ≡ marks_of done all }
    ensures upper_bound { result ≤ 20 }
{
    if all <= done {
        return 20;
    }
    20 * (done as usize) / (all as usize)
}

// The seconds that the boards that are left will take, if the others took so many milliseconds, of which 30 years at most count.
#[tactic(auto, unfolding(crate::specs::Bar::seconds_left))]
fn seconds_left(done: u16, all: u16, spent: u64) -> u64
    ensures { result ≡ seconds_left done all spent }
{
    let left = u64::from(all.saturating_sub(done));
    spent.min(1000000000000) * left / u64::from(done.max(1)) / 1000 + 1
}

// Writes the bar, in place of what stands in the line.
fn put_marks(line: &mut Writer<'_>, full: usize)
    requires { full ≤ 20 }
{
    line.text(b"\r[");
    line.text(part(
        b"####################....................",
        20 - full,
        40 - full,
    ));
}

// Writes the line, and answers it.
fn put_line(out: &mut [u8], done: u16, all: u16, seconds: u64) -> &[u8] {
    let mut line = Writer::new(out);
    put_marks(&mut line, marks(done, all));
    line.field(b"] ", u64::from(done));
    line.field(b" of ", u64::from(all));
    line.field(b" boards, ", seconds);
    line.text(b" s left\x1b[K");
    line.written()
}

// Where it cannot be written, the job goes on.
pub fn draw(screen: &impl Print, done: u16, all: u16, spent: u64) {
    let mut line = [0u8; LINE_BYTES];
    let _ = screen.write_all(put_line(&mut line, done, all, seconds_left(done, all, spent)));
}

pub fn remove(screen: &impl Print) {
    let _ = screen.write_all(b"\r\x1b[K");
}
