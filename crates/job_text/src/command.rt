//! The one command of the program, as it is described to `clap`.

ghost use Rattle.std.specs.Prelude.{◌≡◌, IfOk, false};
ghost use Rattle.clap.specs.Simple.{app_of};
ghost use Rattle.clap.specs.Walk.{rule_of};
ghost use Rattle.job_mean.specs.Command as spec;

use clap::{Arg, ArgAction, Command};
use command_line::{bare, flag, option, positional, required, with};
use std::alloc::{AllocError, Global};

/// All that the program's words may be, whatever the job: `--events` has a value.
pub(crate) fn command<'a>(alloc: Global) -> Result<Command<'a>, AllocError>
    ensures { IfOk result (λ command. app_of command ≡ spec.command) }
{
    command_with(alloc, option(alloc, "events"))
}

/// The same for a replay that tells its events: `--events` has none.
pub(crate) fn telling_command<'a>(alloc: Global) -> Result<Command<'a>, AllocError>
    ensures { IfOk result (λ command. app_of command ≡ spec.telling_command) }
{
    command_with(alloc, telling(alloc))
}

/// `--events` without a value, at most once.
fn telling<'a>(alloc: Global) -> Arg<'a>
    ensures rule { rule_of result ≡ spec.telling }
    ensures local { result.global ≡ false }
{
    Arg::new(alloc, "telling")
        .long("events")
        .action(ArgAction::SetTrue)
}

/// All that the program's words may be, with this word for `--events`.
fn command_with<'a>(alloc: Global, events: Arg<'a>) -> Result<Command<'a>, AllocError>
    requires { events.global ≡ false }
    ensures { IfOk result (λ command. app_of command ≡ spec.command_with (rule_of events.entry)) }
{
    let command = with(bare(alloc, "stackc"), required(alloc, "job"))?;
    let command = with(command, required(alloc, "file"))?;
    let command = with(command, positional(alloc, "second"))?;
    let command = with(command, option(alloc, "run"))?;
    let command = with(command, option(alloc, "seed"))?;
    let command = with(command, events)?;
    let command = with(command, option(alloc, "members"))?;
    let command = with(command, option(alloc, "turns"))?;
    let command = with(command, option(alloc, "me"))?;
    let command = with(command, option(alloc, "patience"))?;
    let command = with(command, option(alloc, "law"))?;
    let command = with(command, option(alloc, "with"))?;
    let command = with(command, flag(alloc, "wire"))?;
    let command = with(command, flag(alloc, "count"))?;
    with(command, flag(alloc, "raw"))
}
