//! The time of a check, and what is told at a terminal while it goes on.

use family_search::Timer;
use msg_core::Memory;
use outside::Clock;
use report_lines::Line;
use std::alloc::Global;
use std::io::Write;

/// How many milliseconds there are at least between two lines of progress.
const NEXT_LINE: u32 = 500;

/// A clock, with the moments at which a check began, of the last look at it, and of the last line of progress; after
/// how many seconds the check stops, 0 for never; how many scripts were tried; and where progress is told, if somebody
/// reads it.
#[derive(Drop)]
pub struct Watch<C: Clock + Drop, N: Write + Drop> {
    alloc: Global,
    clock: C,
    began: u32,
    now: u32,
    told: u32,
    seconds: u32,
    scripts: u64,
    notes: N,
    is_read: bool,
}

impl<C: Clock + Drop, N: Write + Drop> Watch<C, N> {
    /// A watch by this clock, which tells its progress on a stream, if somebody reads it.
    pub fn new(alloc: Global, clock: C, notes: N, is_read: bool) -> Watch<C, N> {
        Watch {
            alloc,
            clock,
            began: 0,
            now: 0,
            told: 0,
            seconds: 0,
            scripts: 0,
            notes,
            is_read,
        }
    }

    /// A check begins that stops after this many seconds.
    pub(crate) fn begin(&mut self, seconds: u32) {
        self.began = self.clock.now();
        self.now = self.began;
        self.told = self.began;
        self.seconds = seconds;
        self.scripts = 0;
    }

    /// The memory for what is told.
    pub(crate) fn alloc(&self) -> Global {
        self.alloc
    }

    /// How many scripts were tried.
    pub(crate) fn scripts(&self) -> u64 {
        self.scripts
    }

    /// The line of progress is left.
    pub(crate) fn end(&mut self) {
        if self.is_read && self.told != self.began {
            let _ = self.notes.write(b"\n");
        }
    }

    /// Tells now and then how many scripts were tried. Where there is no memory for it, nothing is told.
    fn tell(&mut self) {
        if self.is_read && self.now.wrapping_sub(self.told) >= NEXT_LINE {
            self.told = self.now;
            let passed = self.now.wrapping_sub(self.began);
            if let Ok(line) = progress_line(self.alloc, self.scripts, passed) {
                let _ = self.notes.write(line.slice());
            }
        }
    }
}

impl<C: Clock + Drop, N: Write + Drop> Timer for Watch<C, N> {
    fn note_script(&mut self) {
        self.scripts = self.scripts.saturating_add(1);
    }

    fn is_late(&mut self) -> bool {
        self.now = self.clock.now();
        self.tell();
        let passed = u64::from(self.now.wrapping_sub(self.began));
        self.seconds > 0 && passed >= 1000 * u64::from(self.seconds)
    }
}

/// How many scripts were tried in this many milliseconds, over the same line as before.
fn progress_line(alloc: Global, scripts: u64, passed: u32) -> Result<Line, Memory> {
    let mut line = Line::new(alloc);
    line.text(b"\r")?;
    line.number(scripts)?;
    line.text(b" scripts in ")?;
    line.number(u64::from(passed / 1000))?;
    line.text(b" seconds")?;
    Ok(line)
}
