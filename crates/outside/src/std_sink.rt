// The standard output and the standard error.
ghost use Rattle.std.specs.Prelude.{◌≡◌, ◌≢◌, ◌≤◌, ◌+◌, ◌↔◌, IsTrue, None, Err, IfOk, OnOk, length, [], drop};
ghost use Rattle.std.specs.Prelude.{vec_capacity};
ghost use Rattle.std.specs.Bool.{OnTrue};
ghost use Rattle.std.specs.Option.{option_map};
ghost use Rattle.std.specs.Io.KnownBytes.{Keeps};
ghost use Rattle.outside.specs.declared.sink.SinkError.TheVariants.{Memory};
ghost use Rattle.outside.specs.Sink.{Puts, faults_after_put};
ghost use Rattle.outside.specs.StdSink.{HandsOn, gathered_bytes};

use crate::count::count_after;
use crate::{Sink, SinkError};
use std::alloc::{AllocError, Global};
use std::io::{ErrorKind, Write};

/// How many bytes are gathered before they are handed on.
const GATHERED: usize = 65536;

/// A stream of the system, as `StdSink::new(alloc, rt.stdout())`. It gathers what is put and hands it on in large
/// pieces, so call `finish` at the end. After it was made it takes no memory.
#[derive(Drop)]
pub struct StdSink<W: Write + Drop> {
    stream: W,
    held: Vec<u8>,
    // How many of the held bytes the stream has.
    done: usize,
    faults: u64,
    ghost done_held: { done ≤ length held.items },
}

impl<W: Write + Drop> StdSink<W> {
    ghost use Rattle.outside.specs.Stream.{stream_of, IsBeginning};

    /// A sink over the stream, which gathers up to 64 KiB.
    pub fn new(alloc: Global, stream: W) -> Result<Self, AllocError>
        ensures contents { IfOk result (λ sink. Keeps (W.contents stream) (⟦<StdSink<W> as Sink>⟧.contents sink)) }
        ensures faults { IfOk result (λ sink. ⟦<StdSink<W> as Sink>⟧.faults sink ≡ 0) }
    {
        let held = Vec::with_capacity(alloc, GATHERED)?;
        Ok(StdSink {
            stream,
            held,
            done: 0,
            faults: 0,
        })
    }

    /// Hands on what is gathered. Where that fails the count rises as after a failed put.
    pub fn finish(&mut self) -> Result<(), SinkError>
        ensures counted { ⟦<StdSink<W> as Sink>⟧.faults self.new ≡
            faults_after_put (⟦<StdSink<W> as Sink>⟧.faults self.old) result }
        ensures kept { Keeps (⟦<StdSink<W> as Sink>⟧.contents self.old) (⟦<StdSink<W> as Sink>⟧.contents self.new) }
        ensures written { OnOk result
            (Keeps (⟦<StdSink<W> as Sink>⟧.contents self.old) (W.contents (stream_of self.new))) }
        ensures begun { IsBeginning (W.contents (stream_of self.new)) (⟦<StdSink<W> as Sink>⟧.contents self.old) }
        ensures memory { result ≢ Err Memory }
    {
        if self.hand_on() && self.stream.flush().is_ok() {
            return Ok(());
        }
        self.faults = count_after(self.faults);
        Err(SinkError::Failed)
    }

    /// The stream, which lacks what is gathered.
    pub fn stream(&self) -> &W
        ensures { result.now ≡ stream_of self.now }
    {
        &self.stream
    }

    /// How many puts and `finish`es have failed.
    pub fn faults(&self) -> u64
        ensures { result ≡ ⟦<StdSink<W> as Sink>⟧.faults self.now }
    {
        self.faults
    }

    fn has_room_for(&self, bytes: &[u8]) -> bool
        ensures { IsTrue result ↔ (length self.now.held.items + length bytes.now ≤ vec_capacity self.now.held) }
    {
        bytes.len() <= self.held.capacity() - self.held.len()
    }

    // Whether the stream took what is held.
    fn hand_on(&mut self) -> bool
        ensures kept { Keeps (gathered_bytes (W.contents self.old.stream) self.old.done self.old.held.items)
            (gathered_bytes (W.contents self.new.stream) self.new.done self.new.held.items) }
        ensures emptied { OnTrue result ((self.new.held.items ≡ []) × (self.new.done ≡ 0)) }
        ensures capacity { vec_capacity self.new.held ≡ vec_capacity self.old.held }
        ensures faults { self.new.faults ≡ self.old.faults }
    {
        match write_through(&mut self.stream, &self.held[self.done..]) {
            Ok(()) => {
                self.held.clear();
                self.done = 0;
                true
            }
            Err(count) => {
                self.done += count;
                false
            }
        }
    }
}

impl<W: Write + Drop> Sink for StdSink<W> {
    ghost faults = { λ sink. sink.faults };

    ghost contents = { λ sink. gathered_bytes (W.contents sink.stream) sink.done sink.held.items };

    ghost failures = { λ _. None };

    fn put(&mut self, bytes: &[u8]) -> Result<(), SinkError>
        ensures counted { self.new.faults ≡ faults_after_put self.old.faults result }
        ensures put { Puts None (gathered_bytes (W.contents self.old.stream) self.old.done self.old.held.items)
            (gathered_bytes (W.contents self.new.stream) self.new.done self.new.held.items) bytes.now result }
        ensures memory { result ≢ Err Memory }
    {
        if !self.has_room_for(bytes) && !self.hand_on() {
            self.faults = count_after(self.faults);
            return Err(SinkError::Failed);
        }
        if self.has_room_for(bytes) {
            return Ok(self.held.extend_from_slice(bytes)?);
        }
        match write_through(&mut self.stream, bytes) {
            Ok(()) => Ok(()),
            Err(_) => {
                self.faults = count_after(self.faults);
                Err(SinkError::Failed)
            }
        }
    }
}

// Writes all the bytes. An error says how many were written before it.
fn write_through<W: Write>(stream: &mut W, bytes: &[u8]) -> Result<(), usize>
    ensures { HandsOn (W.contents stream.old) (W.contents stream.new) bytes.now result }
{
    let mut written = 0;
    for _ in 0..u64::MAX {
        if written == bytes.len() {
            return Ok(());
        }
        match stream.write(&bytes[written..]) {
            Ok(0) => return Err(written),
            Ok(count) => written += count,
            Err(error) if error.kind() == ErrorKind::Interrupted => {}
            Err(_) => return Err(written),
        }
    }
    Err(written)
}
