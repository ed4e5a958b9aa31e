//! Sinks whose bytes are seen before the end of a run.

ghost use Rattle.outside.specs.Tells.{tells_of};
ghost use Rattle.live_outside.specs.HandsOn.{HandsOn};

use outside::{MemSink, Sink, StdSink, StillSink};
use std::io::Write;

/// A sink that can hand on what it gathered.
pub trait LiveSink: Sink {
    /// Hands on all that was put so far, and answers whether that went well. A sink that tells which puts are to fail
    /// always can; where another can't, its count of faults rises as at a put that fails.
    fn hand_on(&mut self) -> bool
        ensures { HandsOn (tells_of Self.Sink self.old) (tells_of Self.Sink self.new) result };
}

impl<W: Write + Drop> LiveSink for StdSink<W> {
    fn hand_on(&mut self) -> bool {
        self.finish().is_ok()
    }
}

impl LiveSink for MemSink {
    fn hand_on(&mut self) -> bool {
        true
    }
}

impl LiveSink for StillSink {
    fn hand_on(&mut self) -> bool {
        true
    }
}
