//! From the words to the job.

ghost use Rattle.std.specs.Prelude.{◌≡◌, IfOk, map, option_map};
ghost use Rattle.std.specs.String.{string_bytes};
ghost use Rattle.job_mean.specs.Given.{given_of, telling_of};
ghost use Rattle.job_mean.specs.Job.{job_of_words};
ghost use Rattle.job_text.specs.Shown.{shown_given, shown_job};
ghost use Rattle.job_text.specs.Words.{job_of_all, telling_job_of};

use crate::command::{command, telling_command};
use crate::given::Given;
use crate::jobs::{job_of, telling_job};
use crate::named::Job;
use command_line::taken;
use msg_core::Memory;
use std::alloc::Global;

/// The job that the words after the program's name are, or none where they are no job.
pub fn job<'w>(alloc: Global, words: &'w [String]) -> Result<Option<Job<'w>>, Memory>
    ensures { IfOk result (λ job. option_map shown_job job ≡ job_of_words (map string_bytes words.now)) }
{
    match job_by_all(alloc, words)? {
        Some(job) => Ok(Some(job)),
        None => job_by_telling(alloc, words),
    }
}

/// The job that the words are by the command of all jobs.
fn job_by_all<'w>(alloc: Global, words: &'w [String]) -> Result<Option<Job<'w>>, Memory>
    ensures { IfOk result (λ job. option_map shown_job job ≡ job_of_all (map string_bytes words.now)) }
{
    let Some(given) = given(alloc, words)? else {
        return Ok(None);
    };
    Ok(job_of(alloc, &given)?)
}

/// The replay that the words are by the command of one that tells its events.
fn job_by_telling<'w>(alloc: Global, words: &'w [String]) -> Result<Option<Job<'w>>, Memory>
    ensures { IfOk result (λ job. option_map shown_job job ≡ telling_job_of (map string_bytes words.now)) }
{
    let Some(given) = telling_given(alloc, words)? else {
        return Ok(None);
    };
    Ok(telling_job(&given))
}

/// What the words give, if `clap` takes them.
fn given<'w>(alloc: Global, words: &'w [String]) -> Result<Option<Given<'w>>, Memory>
    ensures { IfOk result (λ given. option_map shown_given given ≡ given_of (map string_bytes words.now)) }
{
    match taken(command(alloc)?, words)? {
        Some(matches) => Ok(Given::of(&matches)),
        None => Ok(None),
    }
}

/// What they give to a replay that tells its events, if `clap` takes them so.
fn telling_given<'w>(alloc: Global, words: &'w [String]) -> Result<Option<Given<'w>>, Memory>
    ensures { IfOk result (λ given. option_map shown_given given ≡ telling_of (map string_bytes words.now)) }
{
    match taken(telling_command(alloc)?, words)? {
        Some(matches) => Ok(Given::of(&matches)),
        None => Ok(None),
    }
}
