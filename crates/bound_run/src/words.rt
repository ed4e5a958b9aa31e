//! The words of the program: which check they ask for.

ghost use Rattle.std.specs.Prelude.{◌≡◌, IfOk, map, option_map};
ghost use Rattle.std.specs.String.{string_bytes};
ghost use Rattle.clap.specs.Simple.{app_of};
ghost use Rattle.command_line.specs.Rules.{rows_found};
ghost use Rattle.job_mean.specs.Job as job;
ghost use Rattle.job_text.specs.Shown as word;
ghost use Rattle.bound_mean.specs.Words as spec;
ghost use Rattle.bound_run.specs.Reading.{request_shown};

use audit_mean::Law;
use clap::{ArgMatches, Command};
use command_line::{bare, option, required, taken, text, with};
use job_text::{a_number, a_number_or_zero, law_of};
use std::alloc::{AllocError, Global};

/// The most events of a script.
const MOST_EVENTS: u32 = 1_000;

/// The most repeats of a packet.
const MOST_REPEATS: u32 = 1_000;

/// The most seconds of a check.
const LONGEST_CHECK: u32 = 1_000_000;

/// A stack file and a script of acts; the law that is asked about; how many events a script has at most, and how often
/// a packet may be given again to a member; and after how many seconds the check stops, 0 for never.
#[derive(Clone, Copy)]
pub(crate) struct Request<'w> {
    pub file: &'w str,
    pub acts: &'w str,
    pub law: Law,
    pub events: u16,
    pub repeats: u16,
    pub seconds: u32,
}

/// What the words after the program's name ask for, or nothing where they are no request.
pub(crate) fn asked_for<'w>(
    alloc: Global,
    words: &'w [String],
) -> Result<Option<Request<'w>>, AllocError>
    ensures { IfOk result (λ request. option_map request_shown request ≡ spec.request_of (map string_bytes words.now)) }
{
    let Some(matches) = taken(command(alloc)?, words)? else {
        return Ok(None);
    };
    Ok(request_in(&matches))
}

/// What `clap` found, by name.
fn request_in<'w>(matches: &ArgMatches<'w>) -> Option<Request<'w>>
    ensures { option_map request_shown result ≡ spec.request_in (rows_found matches.now) }
{
    let file = text(matches, "file")?;
    let acts = text(matches, "acts")?;
    let law = law_of(text(matches, "law"))?;
    let events = events_of(text(matches, "events"))?;
    let repeats = repeats_of(text(matches, "repeats"))?;
    let seconds = a_number_or_zero(LONGEST_CHECK, text(matches, "seconds"))?;
    Some(Request {
        file,
        acts,
        law,
        events,
        repeats,
        seconds,
    })
}

/// How many events a script has at most, which has to be given.
fn events_of(given: Option<&str>) -> Option<u16>
    ensures { result ≡ job.a_number 1 1000 (word.text given.entry) }
{
    Some(a_number(1, MOST_EVENTS, given)? as u16)
}

/// How often a packet may be given again, 0 where it isn't given.
fn repeats_of(given: Option<&str>) -> Option<u16>
    ensures { result ≡ job.a_number_or_zero 1000 (word.text given.entry) }
{
    Some(a_number_or_zero(MOST_REPEATS, given)? as u16)
}

/// The one command of the program, as it is described to `clap`.
fn command<'a>(alloc: Global) -> Result<Command<'a>, AllocError>
    ensures { IfOk result (λ command. app_of command ≡ spec.command) }
{
    let command = with(bare(alloc, "stackcheck"), required(alloc, "file"))?;
    let command = with(command, required(alloc, "acts"))?;
    let command = with(command, option(alloc, "law"))?;
    let command = with(command, option(alloc, "events"))?;
    let command = with(command, option(alloc, "repeats"))?;
    with(command, option(alloc, "seconds"))
}
