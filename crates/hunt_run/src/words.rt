//! The words of the program: which hunt they ask for.

ghost use Rattle.std.specs.Prelude.{◌≡◌, IfOk, map, option_map};
ghost use Rattle.std.specs.String.{string_bytes};
ghost use Rattle.clap.specs.Simple.{app_of};
ghost use Rattle.command_line.specs.Rules.{rows_found};
ghost use Rattle.job_mean.specs.Job as job;
ghost use Rattle.job_text.specs.Shown as word;
ghost use Rattle.hunt_mean.specs.Words as spec;
ghost use Rattle.msg_core.specs.View.{most_members};
ghost use Rattle.hunt_run.specs.Reading.{request_shown};

use audit_mean::Law;
use clap::{ArgMatches, Command};
use command_line::{bare, option, required, taken, text, with};
use hunt_mean::Style;
use job_text::{MOST_GENERATED, a_number, a_number_or_zero, law_of};
use msg_core::MOST_MEMBERS;
use std::alloc::{AllocError, Global};

/// The most seconds of a hunt.
const MOST_SECONDS: u32 = 1_000_000;

/// A stack file and the law that its stack is to break; how many members a group has, and how many events a run; how
/// many runs there are, and from which number on; after how many seconds no run begins, 0 for never; and what happens
/// in them above all.
#[derive(Clone, Copy)]
pub(crate) struct Request<'w> {
    pub file: &'w str,
    pub law: Law,
    pub members: u8,
    pub events: u32,
    pub runs: u32,
    pub seed: u32,
    pub seconds: u32,
    pub style: Style,
}

/// What the words after the program's name ask for, or nothing where they are no request.
pub(crate) fn asked_for<'w>(
    alloc: Global,
    words: &'w [String],
) -> Result<Option<Request<'w>>, AllocError>
    ensures { IfOk result (λ request. option_map request_shown request ≡ spec.request_of (map string_bytes words.now)) }
{
    let Some(matches) = taken(command(alloc)?, words)? else {
        return Ok(None);
    };
    Ok(request_in(&matches))
}

/// What `clap` found, by name.
fn request_in<'w>(matches: &ArgMatches<'w>) -> Option<Request<'w>>
    ensures { option_map request_shown result ≡ spec.request_in (rows_found matches.now) }
{
    let file = text(matches, "file")?;
    let law = law_of(text(matches, "law"))?;
    let members = members_of(text(matches, "members"))?;
    let events = a_number(1, MOST_GENERATED, text(matches, "events"))?;
    let runs = a_number(1, u32::MAX, text(matches, "runs"))?;
    let seed = a_number(0, u32::MAX, text(matches, "seed"))?;
    let seconds = a_number_or_zero(MOST_SECONDS, text(matches, "seconds"))?;
    let style = style_of(text(matches, "style"))?;
    Some(Request {
        file,
        law,
        members,
        events,
        runs,
        seed,
        seconds,
        style,
    })
}

/// How many members a group has, which has to be given.
fn members_of(given: Option<&str>) -> Option<u8>
    ensures { result ≡ job.a_number 1 most_members (word.text given.entry) }
{
    Some(a_number(1, u32::from(MOST_MEMBERS), given)? as u8)
}

/// The style of `--style`; without it, the mix.
fn style_of(given: Option<&str>) -> Option<Style>
    ensures { result ≡ spec.style_of (word.text given.entry) }
{
    let Some(name) = given else {
        return Some(Style::Mixed);
    };
    if name == "mixed" {
        Some(Style::Mixed)
    } else if name == "flood" {
        Some(Style::Flood)
    } else if name == "crash" {
        Some(Style::Crash)
    } else if name == "part" {
        Some(Style::Part)
    } else {
        None
    }
}

/// The one command of the program, as it is described to `clap`.
fn command<'a>(alloc: Global) -> Result<Command<'a>, AllocError>
    ensures { IfOk result (λ command. app_of command ≡ spec.command) }
{
    let command = with(bare(alloc, "stackhunt"), required(alloc, "file"))?;
    let command = with(command, option(alloc, "law"))?;
    let command = with(command, option(alloc, "members"))?;
    let command = with(command, option(alloc, "events"))?;
    let command = with(command, option(alloc, "runs"))?;
    let command = with(command, option(alloc, "seed"))?;
    let command = with(command, option(alloc, "seconds"))?;
    with(command, option(alloc, "style"))
}
