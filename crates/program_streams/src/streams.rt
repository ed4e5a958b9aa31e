//! Streams that are handed what was put.

ghost use Rattle.outside.specs.Stream.{stream_of};
ghost use Rattle.outside.specs.Tells.{tells_of};
ghost use Rattle.program_streams.specs.Streams.{HandsOn};

use outside::{Sink, StdSink};
use std::io::Write;

/// Hands on to the stream what is gathered for it, and answers whether it got all.
pub fn hand_on<W: Write + Drop>(sink: &mut StdSink<W>) -> bool
    ensures { HandsOn (tells_of ⟦<StdSink<W> as Sink>⟧ sink.old) (tells_of ⟦<StdSink<W> as Sink>⟧ sink.new)
        (W.contents (stream_of sink.new)) result }
{
    match sink.finish() {
        Ok(()) => true,
        Err(_) => false,
    }
}
