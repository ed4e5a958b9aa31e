//! The lines with which cases begin.

ghost use Rattle.std.specs.Prelude.{◌≡◌, ◌++◌, bytes_eq, map};
ghost use Rattle.pack_mean.specs.File as file;
ghost use Rattle.pack_mean.specs.Reader as reader;
ghost use Rattle.pack_words.specs.Reading.{Takes, left};
ghost use Rattle.pack_read.specs.Files.{begins, due_tree};

use crate::due::Due;
use layer_mean::Case;
use pack_words::{LineError, Text};

/// What an entry is called.
fn entry_name(text: &mut Text<'_>, entry: u32) -> Result<(), LineError>
    ensures { Takes (reader.the_text (file.entry_name entry) (left text.old)) result (left text.new) }
{
    if entry == 0 {
        text.the(b"cast")
    } else if entry == 1 {
        text.the(b"send")
    } else {
        text.the_numbered(b"plan ", u64::from(entry - 2))
    }
}

/// These bytes, and what an entry is called.
#[tactic(auto, using(pack_words::proofs::Fronts::not_front))]
fn named_entry(text: &mut Text<'_>, front: &[u8], entry: u32) -> Result<(), LineError>
    ensures { Takes (reader.the_text (front.now ++ file.entry_name entry) (left text.old)) result (left text.new) }
{
    text.the(front)?;
    entry_name(text, entry)
}

/// The number of a case.
fn case_number(case: Case) -> u64
    ensures { result ≡ file.case_number case }
{
    match case {
        Case::First => 1,
        Case::Second => 2,
    }
}

/// The line of a case.
fn heading(text: &mut Text<'_>, due: &Due) -> Result<(), LineError>
    ensures { Takes (reader.the_text (file.heading due.now.entry due.now.case) (left text.old)) result (left text.new) }
{
    named_entry(text, b"entry ", due.entry)?;
    text.the_numbered(b" case ", case_number(due.case))
}

/// Whether a line begins a case.
fn is_heading(due: &Due, line: &[u8]) -> bool
    ensures { result ≡ bytes_eq line.now (file.heading due.now.entry due.now.case) }
{
    let mut text = Text::new(line);
    match heading(&mut text, due) {
        Ok(()) => text.is_empty(),
        Err(_) => false,
    }
}

/// Whether a line begins the next case that is due, or ends the file where none is.
pub(crate) fn begins(due: &[Due], line: &[u8]) -> bool
    ensures { result ≡ begins (map due_tree due.now) line.now }
{
    match due {
        [first, ..] => is_heading(first, line),
        [] => line == b"end".as_slice(),
    }
}
