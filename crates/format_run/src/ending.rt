//! How a run ended, and what is said of it.
ghost use Rattle.std.specs.Prelude.{◌≡◌, ◌++◌, IfOk, codes};
ghost use Rattle.std.specs.String.{string_bytes};
ghost use Rattle.outside.specs.Said.{errors};
ghost use Rattle.outside.specs.Tells.{tells_of};
ghost use Rattle.format_run.specs.Causes.{unread, unwritten};
ghost use Rattle.format_run.specs.declared.ending.LayoutEnding.TheVariants as ending;
ghost use Rattle.format_run.specs.Ends.{Said, token_line};

use layer_words::At;
use outside::{NO_MEMORY, ShelfError, Sink, SinkError, say_line};
use std::alloc::{AllocError, Global};

/// How a run ended.
#[derive(Clone, Copy, Debug, PartialEq, Eq)]
pub enum LayoutEnding {
    /// The file was laid out, and all of it written.
    Done,
    /// The words name no file.
    Words,
    /// The file has over 1,048,576 bytes.
    TooLarge,
    /// The file has bad tokens, and the first of them stands here.
    BadToken(At),
    /// The file couldn't be read.
    Read,
    /// The output couldn't be written.
    Write,
    /// Memory ran out.
    Memory,
}

impl From<AllocError> for LayoutEnding {
    ghost from_gives = { λ _ end. end ≡ ending.Memory };

    fn from(_: AllocError) -> LayoutEnding {
        LayoutEnding::Memory
    }
}

impl From<ShelfError> for LayoutEnding {
    ghost from_gives = { λ cause end. end ≡ unread cause };

    fn from(cause: ShelfError) -> LayoutEnding {
        match cause {
            ShelfError::Failed => LayoutEnding::Read,
            ShelfError::Memory => LayoutEnding::Memory,
        }
    }
}

impl From<SinkError> for LayoutEnding {
    ghost from_gives = { λ cause end. end ≡ unwritten cause };

    fn from(cause: SinkError) -> LayoutEnding {
        match cause {
            SinkError::Failed => LayoutEnding::Write,
            SinkError::Memory => LayoutEnding::Memory,
        }
    }
}

/// The status where a file is refused.
const FILE_REFUSED: u8 = 1;

/// Says how a run ended, and answers the program's status.
pub(crate) fn say<E: Sink>(alloc: Global, ending: LayoutEnding, err: &mut E) -> u8
    ensures { Said ending (errors (tells_of E.Sink err.old) (tells_of E.Sink err.new) result) }
{
    match ending {
        LayoutEnding::Done => 0,
        LayoutEnding::Words => say_line(b"words: refused\n", 2, err),
        LayoutEnding::TooLarge => say_line(b"file: too large\n", FILE_REFUSED, err),
        LayoutEnding::BadToken(at) => say_token(alloc, at, err),
        LayoutEnding::Read => say_line(b"read fault\n", 4, err),
        LayoutEnding::Write => say_line(b"write fault\n", 5, err),
        LayoutEnding::Memory => say_line(b"no memory\n", NO_MEMORY, err),
    }
}

/// Says where the first bad token stands.
fn say_token<E: Sink>(alloc: Global, at: At, err: &mut E) -> u8
    ensures { Said (LayoutEnding.BadToken at) (errors (tells_of E.Sink err.old) (tells_of E.Sink err.new) result) }
{
    match token_line(alloc, at) {
        Ok(line) => say_line(line.as_bytes(), FILE_REFUSED, err),
        Err(_) => NO_MEMORY,
    }
}

fn token_line(alloc: Global, at: At) -> Result<String, AllocError>
    ensures { IfOk result (λ line. string_bytes line ≡ token_line at) }
{
    format!(in alloc; "file: token {}:{}\n", at.line, at.col)
}
