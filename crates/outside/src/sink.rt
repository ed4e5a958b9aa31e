// A stream of bytes to write to.
ghost use Rattle.std.specs.Prelude.{◌≡◌, ℕ, List, Option, drop};
ghost use Rattle.std.specs.Option.{option_map};
ghost use Rattle.outside.specs.declared.sink.SinkError.TheVariants.{Memory};
ghost use Rattle.outside.specs.Sink.{Puts, faults_after_put};

use msg_core::Memory as NoMemory;
use std::alloc::AllocError;

/// Why a put didn't append all its bytes.
#[derive(Clone, Copy, Debug, PartialEq, Eq)]
pub enum SinkError {
    /// The stream takes no more, or not now.
    Failed,
    /// There was no memory for them.
    Memory,
}

impl From<AllocError> for SinkError {
    ghost from_gives = { λ _ e. e ≡ Memory };

    fn from(_: AllocError) -> Self {
        SinkError::Memory
    }
}

impl From<NoMemory> for SinkError {
    ghost from_gives = { λ _ e. e ≡ Memory };

    fn from(_: NoMemory) -> Self {
        SinkError::Memory
    }
}

/// A place that bytes are appended to.
pub trait Sink {
    /// How many puts have failed. The count stands still at the last value of a `u64`.
    ghost faults: { Self → ℕ };

    /// The bytes that were appended so far, where the sink tells them.
    ghost contents: { Self → Option (List ℕ) };

    /// For the puts to come, in order, how many bytes each appends before it fails, if it is to fail; where the sink
    /// tells.
    ghost failures: { Self → Option (List (Option ℕ)) };

    /// Appends the bytes. On an error a prefix of them was appended.
    fn put(&mut self, bytes: &[u8]) -> Result<(), SinkError>
        ensures counted { faults self.new ≡ faults_after_put (faults self.old) result }
        ensures put { Puts (failures self.old) (contents self.old) (contents self.new) bytes.now result }
        ensures kept { failures self.new ≡ option_map (drop 1) (failures self.old) };
}
