//! The output of a job of one line, and its writing.

ghost use Rattle.std.specs.Prelude.{[], ◌∷◌, if◌then◌else◌};
ghost use Rattle.std.specs.String.{string_bytes};
ghost use Rattle.end_mean.specs.Status.{breached, done};
ghost use Rattle.job_ends.specs.Comes.{Writes};
ghost use Rattle.job_ends.specs.Shown.{shown_end};
ghost use Rattle.outside.specs.Tells.{tells_of};

use job_ends::Ending;
use outside::{Sink, SinkError, put_line};

/// The output of a job, and whether it is a breach of a law.
#[derive(Drop)]
pub(crate) struct Output {
    pub line: String,
    pub breach: bool,
}

/// Writes an output, and answers how the job ended.
pub(crate) fn write<O: Sink>(output: &Output, out: &mut O) -> Ending
    ensures { Writes (string_bytes output.now.line ∷ []) (if output.now.breach then breached else done)
        (tells_of O.Sink out.old) (tells_of O.Sink out.new) (shown_end result) }
{
    match put_line(output.line.as_bytes(), out) {
        Ok(()) if output.breach => Ending::Breached,
        Ok(()) => Ending::Done,
        Err(SinkError::Failed) => Ending::Write,
        Err(SinkError::Memory) => Ending::Memory,
    }
}
