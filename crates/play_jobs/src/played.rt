//! How a run over a stack ended.

ghost use Rattle.std.specs.Prelude.{◌≡◌};
ghost use Rattle.job_ends.specs.Shown.{shown_end};
ghost use Rattle.play_jobs.specs.Ends.{end_of};

use crate::error::PlayError;
use job_ends::Ending;

/// How the job ends whose run ended so.
pub(crate) fn ending(run: Result<(), PlayError>) -> Ending
    ensures { shown_end result ≡ end_of run }
{
    match run {
        Ok(()) => Ending::Done,
        Err(PlayError::TooManyRows) => Ending::TooManyRows,
        Err(PlayError::Failed) => Ending::Write,
        Err(PlayError::Memory) => Ending::Memory,
    }
}
