// What a person who waits at a terminal sees: a bar, from half a second on, at most four times a second. Time is the processor's, since that is what a job
// spends.
use crate::bar;
use std::io::{IsTerminal, Stderr};
use std::time::CpuClock;

// Standard error, whether someone waits there, the time when the clock was last looked at, in milliseconds, and whether a bar stands in the line.
#[derive(Clone, Copy)]
pub struct Waiting {
    screen: Stderr,
    terminal: bool,
    last: u64,
    drawn: bool,
}

// Milliseconds of the processor's time; 0 where the clock is not to be had.
fn spent(rt: &impl CpuClock) -> u64 {
    match rt.process_cpu_time() {
        Ok(time) => u64::try_from(time.as_millis()).unwrap_or(u64::MAX),
        Err(_) => 0,
    }
}

// Whether a quarter of a second began since, and the job has taken half a second.
fn is_time(last: u64, now: u64) -> bool {
    500 <= now && last / 250 != now / 250
}

impl Waiting {
    pub fn begin(rt: &impl CpuClock, screen: Stderr) -> Waiting {
        Waiting {
            screen,
            terminal: screen.is_terminal(),
            last: spent(rt),
            drawn: false,
        }
    }

    pub fn look(&mut self, rt: &impl CpuClock, done: u16, all: u16) {
        let now = spent(rt);
        if self.terminal && is_time(self.last, now) && done < all {
            bar::draw(&self.screen, done, all, now);
            self.drawn = true;
        }
        self.last = now;
    }

    pub fn end(self) {
        if self.drawn {
            bar::remove(&self.screen);
        }
    }
}
