// Sinks that are held in memory.
ghost use Rattle.std.specs.Prelude.{◌≡◌, Some, []};

use crate::count::count_after;
use crate::{Sink, SinkError};
use std::alloc::Global;
use std::collections::VecDeque;

/// Bytes in memory, with a list of the puts that are to fail.
#[derive(Drop)]
pub struct MemSink {
    contents: Vec<u8>,
    failures: VecDeque<Option<u64>>,
    faults: u64,
}

impl MemSink {
    /// An empty sink. The list says, in their order, how many bytes each put that is to fail appends first; later puts
    /// are not to fail.
    pub fn new(alloc: Global, failures: Vec<Option<u64>>) -> Self
        ensures contents { ⟦<MemSink as Sink>⟧.contents result ≡ Some [] }
        ensures failures { ⟦<MemSink as Sink>⟧.failures result ≡ Some failures.items }
        ensures faults { ⟦<MemSink as Sink>⟧.faults result ≡ 0 }
    {
        MemSink {
            contents: Vec::new(alloc),
            failures: VecDeque::from(failures),
            faults: 0,
        }
    }

    /// The bytes that were appended so far.
    pub fn contents(&self) -> &[u8]
        ensures { ⟦<MemSink as Sink>⟧.contents self.now ≡ Some result.now }
    {
        &self.contents
    }

    /// How many puts have failed.
    pub fn faults(&self) -> u64
        ensures { result ≡ ⟦<MemSink as Sink>⟧.faults self.now }
    {
        self.faults
    }
}

impl Sink for MemSink {
    ghost faults = { λ sink. sink.faults };

    ghost contents = { λ sink. Some sink.contents.items };

    ghost failures = { λ sink. Some sink.failures.items };

    fn put(&mut self, bytes: &[u8]) -> Result<(), SinkError> {
        match self.failures.pop_front().flatten() {
            None => Ok(self.contents.extend_from_slice(bytes)?),
            Some(count) => {
                let count = bytes.len().min(count as usize);
                self.contents.extend_from_slice(&bytes[..count])?;
                self.faults = count_after(self.faults);
                Err(SinkError::Failed)
            }
        }
    }
}

/// Bytes in memory, of which no put fails.
#[derive(Drop)]
pub struct StillSink {
    contents: Vec<u8>,
}

impl StillSink {
    /// An empty sink.
    pub fn of(alloc: Global) -> Self
        ensures contents { ⟦<StillSink as Sink>⟧.contents result ≡ Some [] }
    {
        StillSink {
            contents: Vec::new(alloc),
        }
    }

    /// The bytes that were appended so far.
    pub fn contents(&self) -> &[u8]
        ensures { ⟦<StillSink as Sink>⟧.contents self.now ≡ Some result.now }
    {
        &self.contents
    }
}

impl Sink for StillSink {
    ghost faults = { λ _. 0 };

    ghost contents = { λ sink. Some sink.contents.items };

    ghost failures = { λ _. Some [] };

    fn put(&mut self, bytes: &[u8]) -> Result<(), SinkError> {
        Ok(self.contents.extend_from_slice(bytes)?)
    }
}
