//! The words of the program: which picture they ask for.
ghost use Rattle.std.specs.Prelude.{◌≡◌, IfOk, None, Some, map, option_map};
ghost use Rattle.std.specs.String.{string_bytes};
ghost use Rattle.clap.specs.Simple.{app_of};
ghost use Rattle.chart_mean.specs.Words as spec;
ghost use Rattle.command_line.specs.Rules.{rows_found};
ghost use Rattle.chart_draw.specs.Reading.{excerpt_shown, request_shown, word_shown};

use chart_mean::Breach;
use clap::{ArgMatches, Command};
use command_line::{bare, option, positional, required, taken, text, with};
use script_text::number_within;
use std::alloc::{AllocError, Global};

/// What is asked of a picture: the lines from the first to the last, by their numbers, counted from 1; the breach that
/// is shown, if one is; and the name of the layer whose headers are left out, empty where all are shown.
#[derive(Clone, Copy)]
pub(crate) struct Excerpt<'w> {
    pub first: u32,
    pub last: u32,
    pub breach: Option<Breach>,
    pub hide: &'w [u8],
}

/// A report, and the lines of it that a picture is asked of.
#[derive(Clone, Copy)]
pub(crate) struct Request<'w> {
    pub file: &'w str,
    pub excerpt: Excerpt<'w>,
}

/// What the words after the program's name ask for, or nothing where they are no request.
pub(crate) fn asked_for<'w>(
    alloc: Global,
    words: &'w [String],
) -> Result<Option<Request<'w>>, AllocError>
    ensures { IfOk result (λ request. option_map request_shown request ≡ spec.request_of (map string_bytes words.now)) }
{
    match taken(command(alloc)?, words)? {
        Some(matches) => Ok(request_in(&matches)),
        None => Ok(None),
    }
}

/// The request in what `clap` found, by name.
fn request_in<'w>(matches: &ArgMatches<'w>) -> Option<Request<'w>>
    ensures { option_map request_shown result ≡ spec.request_in (rows_found matches.now) }
{
    let file = text(matches, "report")?;
    let first = line_number(1, text(matches, "from"))?;
    let last = line_number(u32::MAX, text(matches, "to"))?;
    let breach = breach_of(text(matches, "breach"), text(matches, "second"))?;
    let excerpt = excerpt_of(first, last, breach, hidden(text(matches, "hide")))?;
    Some(Request { file, excerpt })
}

/// The number of a line that is given, or else the default; none where what is given is no such number.
fn line_number(default: u32, given: Option<&str>) -> Option<u32>
    ensures { result ≡ spec.line_number default (word_shown given.entry) }
{
    match given {
        Some(text) => number_within(1, u32::MAX, text.as_bytes()),
        None => Some(default),
    }
}

/// A breach by the numbers of its lines, which are both given or neither.
fn breach_of(first: Option<&str>, second: Option<&str>) -> Option<Option<Breach>>
    ensures { result ≡ spec.breach_of (word_shown first.entry) (word_shown second.entry) }
{
    match first {
        Some(first) => breach_from(first, second),
        None => none_with(second),
    }
}

/// The breach of two lines of which the first is given, if the second is given too.
fn breach_from(first: &str, second: Option<&str>) -> Option<Option<Breach>>
    ensures { result ≡ spec.breach_of (Some first.now) (word_shown second.entry) }
{
    let second = second?;
    let first = number_within(1, u32::MAX, first.as_bytes())?;
    let second = number_within(1, u32::MAX, second.as_bytes())?;
    Some(Some(Breach { first, second }))
}

/// No breach, where no second line is given either.
fn none_with(second: Option<&str>) -> Option<Option<Breach>>
    ensures { result ≡ spec.breach_of None (word_shown second.entry) }
{
    match second {
        Some(_) => None,
        None => Some(None),
    }
}

/// The layer whose headers are left out, empty where none is named.
fn hidden(name: Option<&str>) -> &[u8]
    ensures { result.now ≡ spec.hidden (word_shown name.entry) }
{
    match name {
        Some(name) => name.as_bytes(),
        None => b"",
    }
}

/// The lines from one to another that doesn't stand before it.
fn excerpt_of<'w>(
    first: u32,
    last: u32,
    breach: Option<Breach>,
    hide: &'w [u8],
) -> Option<Excerpt<'w>>
    ensures { option_map excerpt_shown result ≡ spec.excerpt_of first last breach hide.now }
{
    if first <= last {
        Some(Excerpt {
            first,
            last,
            breach,
            hide,
        })
    } else {
        None
    }
}

/// The one command of the program, as `clap` is told of it.
fn command<'a>(alloc: Global) -> Result<Command<'a>, AllocError>
    ensures { IfOk result (λ command. app_of command ≡ spec.command) }
{
    let command = with(bare(alloc, "runchart"), required(alloc, "report"))?;
    let command = with(command, option(alloc, "from"))?;
    let command = with(command, option(alloc, "to"))?;
    let command = with(command, option(alloc, "breach"))?;
    let command = with(command, positional(alloc, "second"))?;
    with(command, option(alloc, "hide"))
}
