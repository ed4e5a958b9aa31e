// Files to read, by name.
ghost use Rattle.std.specs.Prelude.{◌≡◌, ℕ, Option, IfSome};
ghost use Rattle.std.specs.Option.{option_map};
ghost use Rattle.outside.specs.declared.shelf.ShelfError.TheVariants.{Memory};
ghost use Rattle.outside.specs.Shelf.{Shelved, found_in, after_read, faults_after_read, Fills, Answers};

use std::alloc::AllocError;

/// How a read went.
#[derive(Clone, Copy, Debug, PartialEq, Eq)]
pub enum Got {
    /// The buffer holds the file.
    Whole,
    /// The file has more bytes than were asked for, and the buffer is empty.
    TooLong,
}

/// Why a read gave nothing.
#[derive(Clone, Copy, Debug, PartialEq, Eq)]
pub enum ShelfError {
    /// There's no such file, or it can't be read.
    Failed,
    /// There was no memory for it.
    Memory,
}

impl From<AllocError> for ShelfError {
    ghost from_gives = { λ _ e. e ≡ Memory };

    fn from(_: AllocError) -> Self {
        ShelfError::Memory
    }
}

/// A place that files are read from.
pub trait Shelf {
    /// How many reads have failed. The count stands still at the last value of a `u64`.
    ghost faults: { Self → ℕ };

    /// The files, and which of the reads to come are to fail, where the shelf tells.
    ghost told: { Self → Option Shelved };

    /// Empties `into`, and then reads into it the file of this name if it has at most `most` bytes.
    fn read(&mut self, name: &str, into: &mut Vec<u8>, most: u64) -> Result<Got, ShelfError>
        ensures counted { faults self.new ≡ faults_after_read (faults self.old) result }
        ensures filled { Fills most into.new.items result }
        ensures answered { IfSome (told self.old)
            (λ shelf. Answers (found_in shelf name.now) most into.new.items result) }
        ensures kept { told self.new ≡ option_map after_read (told self.old) };
}
