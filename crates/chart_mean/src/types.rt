//! The types of pictures.
ghost use Rattle.std.specs.Prelude.{◌≡◌};
ghost use Rattle.chart_mean.specs.Causes.{unread, unwritten};
ghost use Rattle.chart_mean.specs.declared.types.ChartEnding.TheVariants as ending;

use outside::{ShelfError, SinkError};
use std::alloc::AllocError;

/// Two lines of a report that break a law together, by their numbers.
#[derive(Clone, Copy, Debug, PartialEq, Eq)]
pub struct Breach {
    pub first: u32,
    pub second: u32,
}

/// Where a member is, as far as the lines shown tell.
#[derive(Clone, Copy, Debug, PartialEq, Eq)]
pub enum Stay {
    /// No line told yet.
    Untold,
    /// In the view of this logical time and mask.
    View(u32, u32),
    Out,
}

/// Where a member is from some place of the picture on.
#[derive(Clone, Copy, Debug, PartialEq, Eq)]
pub struct Turn {
    pub x: u64,
    pub stay: Stay,
}

/// A packet that was sent: where it stands in the picture, and the member that sent it.
#[derive(Clone, Copy, Debug, PartialEq, Eq)]
pub struct SentPacket {
    pub x: u64,
    pub member: u8,
}

/// How the program ends.
#[derive(Clone, Copy, Debug, PartialEq, Eq)]
pub enum ChartEnding {
    /// The picture was written.
    Done,
    /// The file has over 67,108,864 bytes.
    TooLarge,
    /// This line of the file is the first out of form.
    Line(u32),
    /// The words ask for no picture.
    Words,
    /// The file couldn't be read.
    Read,
    /// The picture couldn't be written.
    Write,
    /// Memory ran out.
    Memory,
}

impl From<AllocError> for ChartEnding {
    ghost from_gives = { λ _ end. end ≡ ending.Memory };

    fn from(_: AllocError) -> ChartEnding {
        ChartEnding::Memory
    }
}

impl From<ShelfError> for ChartEnding {
    ghost from_gives = { λ cause end. end ≡ unread cause };

    fn from(cause: ShelfError) -> ChartEnding {
        match cause {
            ShelfError::Failed => ChartEnding::Read,
            ShelfError::Memory => ChartEnding::Memory,
        }
    }
}

impl From<SinkError> for ChartEnding {
    ghost from_gives = { λ cause end. end ≡ unwritten cause };

    fn from(cause: SinkError) -> ChartEnding {
        match cause {
            SinkError::Failed => ChartEnding::Write,
            SinkError::Memory => ChartEnding::Memory,
        }
    }
}
