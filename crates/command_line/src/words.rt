//! What `clap` finds in the words of a command.

ghost use Rattle.std.specs.Prelude.{◌≡◌, ◌≢◌, IfOk, None, map, option_map};
ghost use Rattle.std.specs.String.{string_bytes};
ghost use Rattle.clap.specs.Simple.{App, app_of};
ghost use Rattle.clap.specs.Values.{kind_of};
ghost use Rattle.clap.specs.Walk.{first_of};
ghost use Rattle.clap.specs.declared.error.kind.ErrorKind.TheVariants.{OutOfMemory};
ghost use Rattle.command_line.specs.Rules.{IsExact, is_set, rows_found, rows_in};

use clap::error::ErrorKind;
use clap::{ArgMatches, Command, Error};
use std::alloc::AllocError;

/// What `clap` finds in the words after the program's name, or nothing where it refuses them.
pub fn taken<'w>(
    command: Command<'w>,
    words: &'w [String],
) -> Result<Option<ArgMatches<'w>>, AllocError>
    ensures { (app : App) → app_of command.entry ≡ app → IsExact app →
        IfOk result (λ found. option_map rows_found found ≡ rows_in app (map string_bytes words.now)) }
{
    match command.try_get_matches_from(words) {
        Ok(matches) => Ok(Some(matches)),
        Err(error) => refused(&error),
    }
}

/// What is found in words that `clap` refuses: nothing, or want of memory.
fn refused<'w>(error: &Error) -> Result<Option<ArgMatches<'w>>, AllocError>
    ensures { IfOk result (λ found. (found ≡ None) × (kind_of error.now ≢ OutOfMemory)) }
{
    match error.kind() {
        ErrorKind::OutOfMemory => Err(AllocError),
        _ => Ok(None),
    }
}

/// The value of an argument, if it has one.
pub fn text<'w>(matches: &ArgMatches<'w>, name: &str) -> Option<&'w str>
    ensures { option_map (λ s. s.now) result ≡ first_of name.now (rows_found matches.now) }
{
    matches.get_str(name)
}

/// Whether a flag was given.
pub fn is_set(matches: &ArgMatches<'_>, name: &str) -> bool
    ensures { result ≡ is_set name.now (rows_found matches.now) }
{
    matches.get_one::<bool>(name).unwrap_or(false)
}
