//! How a job ended.

ghost use Rattle.std.specs.Prelude.{◌≡◌};
ghost use Rattle.job_ends.specs.Causes.{unread};
ghost use Rattle.job_ends.specs.declared.ending.Ending.TheVariants as ending;

use file_judge::FileError;
use layer_mean::Case;
use outside::ShelfError;
use std::alloc::AllocError;

/// How a job ended.
#[derive(Clone, Copy)]
pub enum Ending {
    /// The whole output was written.
    Done,
    /// The whole output was written, and it is a breach of a law.
    Breached,
    /// The words are no job.
    Words,
    /// The stack file is refused.
    File(FileError),
    /// The file of an audit has over 67,108,864 bytes.
    ReportTooLarge,
    /// This line of the file of an audit is the first out of form.
    ReportLine(u32),
    /// The second file has over 4,194,304 bytes or 100,000 lines.
    SecondTooLong,
    /// This line of the second file is the first out of form.
    SecondLine(u32),
    /// This line of the second file names a member that the group doesn't have.
    SecondMember(u32),
    /// A member has over 8,192 rows with messages.
    TooManyRows,
    /// A file of traces has over 33,554,432 bytes.
    TracesTooLarge,
    /// This line of the file of traces is the first out of form.
    TracesLine(u32),
    /// The trace of this entry, counted from 0 (cast, send, the plans), in this case is the first that does something
    /// else than the stack's own, and this is the first act at which it does.
    TracesDiffer(u32, Case, u32),
    /// A file couldn't be read.
    Read,
    /// The output couldn't be written.
    Write,
    /// A member couldn't listen to the network, or more receives failed than are borne.
    Link,
    /// Memory ran out.
    Memory,
}

impl From<AllocError> for Ending {
    ghost from_gives = { λ _ end. end ≡ ending.Memory };

    fn from(_: AllocError) -> Ending {
        Ending::Memory
    }
}

impl From<ShelfError> for Ending {
    ghost from_gives = { λ cause end. end ≡ unread cause };

    fn from(cause: ShelfError) -> Ending {
        match cause {
            ShelfError::Failed => Ending::Read,
            ShelfError::Memory => Ending::Memory,
        }
    }
}

impl From<FileError> for Ending {
    ghost from_gives = { λ cause end. end ≡ ending.File cause };

    fn from(cause: FileError) -> Ending {
        Ending::File(cause)
    }
}
