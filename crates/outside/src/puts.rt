//! Puts of lines.
#![tactic(auto, using(crate::proofs::Gaining::begins_none))]

ghost use Rattle.std.specs.Prelude.{◌≡◌, ◌∷◌, [], drop};
ghost use Rattle.std.specs.Option.{option_map};
ghost use Rattle.outside.specs.Tells.{tells_of};
ghost use Rattle.outside.specs.Lines.{Wrote, BreaksOff};
ghost use Rattle.outside.specs.Said.{EndsSo, SaysLine, errors};

use crate::sink::{Sink, SinkError};

/// The status where memory ran out.
pub const NO_MEMORY: u8 = 7;

/// Puts one line on a sink.
pub fn put_line<O: Sink>(line: &[u8], out: &mut O) -> Result<(), SinkError>
    ensures wrote { Wrote (line.now ∷ []) (tells_of O.Sink out.old) (tells_of O.Sink out.new) result }
    ensures kept { O.failures out.new ≡ option_map (drop 1) (O.failures out.old) }
    ensures broken_off { BreaksOff line.now (tells_of O.Sink out.old) (tells_of O.Sink out.new) result }
{
    out.put(line)
}

/// Says a line, and answers the status that goes with it, or that memory ran out.
pub fn say_line<E: Sink>(line: &[u8], status: u8, err: &mut E) -> u8
    ensures said { SaysLine line.now status
        (errors (tells_of E.Sink err.old) (tells_of E.Sink err.new) result) }
    ensures ended { EndsSo line.now status
        (errors (tells_of E.Sink err.old) (tells_of E.Sink err.new) result) }
{
    match put_line(line, err) {
        Ok(()) => status,
        Err(SinkError::Failed) => status,
        Err(SinkError::Memory) => NO_MEMORY,
    }
}
