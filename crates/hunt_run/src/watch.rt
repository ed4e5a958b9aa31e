//! The time of a hunt, and what is told at a terminal while it goes on.

ghost use Rattle.std.specs.Prelude.{◌≡◌, false};

use msg_core::Memory;
use outside::Clock;
use report_lines::Line;
use std::alloc::Global;
use std::io::Write;

/// How many milliseconds there are at least between two lines of progress.
const PAUSE: u32 = 500;

/// A clock, with the moments at which a hunt began, of the last look at it, and of the last line of progress; and where
/// such lines go, if somebody reads them.
#[derive(Drop)]
pub struct Watch<C: Clock + Drop, N: Write + Drop> {
    clock: C,
    began: u32,
    now: u32,
    told: u32,
    notes: N,
    is_read: bool,
}

impl<C: Clock + Drop, N: Write + Drop> Watch<C, N> {
    /// A watch by this clock, which tells its progress on a stream, if somebody reads it.
    pub fn new(clock: C, notes: N, is_read: bool) -> Watch<C, N> {
        Watch {
            clock,
            began: 0,
            now: 0,
            told: 0,
            notes,
            is_read,
        }
    }

    /// A hunt begins.
    pub(crate) fn begin(&mut self) {
        self.began = self.clock.now();
        self.now = self.began;
        self.told = self.began;
    }

    /// Whether this many seconds are up; 0 seconds never are.
    pub(crate) fn is_up(&mut self, seconds: u32) -> bool
        ensures { seconds ≡ 0 → result ≡ false }
    {
        self.now = self.clock.now();
        seconds > 0 && u64::from(self.now.wrapping_sub(self.began)) >= 1000 * u64::from(seconds)
    }

    /// Tells now and then how many runs were made. Where there is no memory for it, nothing is told.
    pub(crate) fn tell(&mut self, alloc: Global, made: u32, runs: u32) {
        if self.is_read && self.now.wrapping_sub(self.told) >= PAUSE {
            self.told = self.now;
            if let Ok(line) = progress_line(alloc, made, runs) {
                let _ = self.notes.write(line.slice());
            }
        }
    }

    /// The line of progress is left.
    pub(crate) fn end(&mut self) {
        if self.is_read && self.told != self.began {
            let _ = self.notes.write(b"\n");
        }
    }
}

/// How many runs were made, over the same line as before.
fn progress_line(alloc: Global, made: u32, runs: u32) -> Result<Line, Memory> {
    let mut line = Line::new(alloc);
    line.text(b"\r")?;
    line.number(u64::from(made))?;
    line.text(b" of ")?;
    line.number(u64::from(runs))?;
    line.text(b" runs")?;
    Ok(line)
}
