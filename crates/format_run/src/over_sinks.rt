//! The program over any shelf and sinks.
ghost use Rattle.std.specs.Prelude.{◌≡◌, map, option_map, IfOk};
ghost use Rattle.std.specs.String.{string_bytes};
ghost use Rattle.layer_ast.specs.Cut.{text_tokens as cut_of};
ghost use Rattle.outside.specs.Said.{errors};
ghost use Rattle.outside.specs.Tells.{tells_of};
ghost use Rattle.format_run.specs.Ends as spec;

use crate::ending::{LayoutEnding, say};
use file_lex::cut;
use format_layout::lay_out;
use layer_ast::LONGEST_FILE;
use layer_words::At;
use outside::{Got, Shelf, Sink};
use std::alloc::{AllocError, Global};

/// Lays out the file that the words name, the program's own name left out, and answers the program's status. What is
/// laid out goes to `out`, one line a put; where the run ends with another status than 0, one line on `err` says why.
///
/// With status 0 `out` gained the whole text of the definitions, byte for byte; 1 comes only where the file is refused,
/// 2 only where the words are, 4 and 5 only where the shelf or `out` counted a fault in this call, and 7 where memory
/// ran out. Where the shelf tells what it has and no put of `out` failed, the status is the one that is due, or 7.
pub fn run<S: Shelf, O: Sink, E: Sink>(
    alloc: Global,
    words: &[String],
    shelf: &mut S,
    out: &mut O,
    err: &mut E,
) -> u8
    ensures { spec.Does (map string_bytes words.now)
        (spec.around S.Shelf O.Sink shelf.old shelf.new out.old out.new)
        (errors (tells_of E.Sink err.old) (tells_of E.Sink err.new) result) }
{
    let ending = perform(alloc, words, shelf, out);
    say(alloc, ending, err)
}

/// Lays out the file that the words name, and answers how the run ended.
pub(crate) fn perform<S: Shelf, O: Sink>(
    alloc: Global,
    words: &[String],
    shelf: &mut S,
    out: &mut O,
) -> LayoutEnding
    ensures { spec.Comes (spec.name_of (map string_bytes words.now))
        (spec.around S.Shelf O.Sink shelf.old shelf.new out.old out.new) result }
{
    match name_of(words) {
        Some(name) => format_file(alloc, name, shelf, out),
        None => LayoutEnding::Words,
    }
}

/// The name of the file: the only word, if it doesn't begin as an option does, or the one word after `--`.
fn name_of(words: &[String]) -> Option<&str>
    ensures { option_map (λ name. name.now) result ≡ spec.name_of (map string_bytes words.now) }
{
    match words {
        [word] => no_option(word.as_str()),
        [first, word] if first.as_str() == "--" => Some(word.as_str()),
        _ => None,
    }
}

/// A word, unless it begins as an option does.
fn no_option(word: &str) -> Option<&str>
    ensures { option_map (λ name. name.now) result ≡ spec.no_option word.now }
{
    match word.as_bytes().split_first() {
        Some((b'-', _)) => None,
        _ => Some(word),
    }
}

/// Lays out the file of a name.
fn format_file<S: Shelf, O: Sink>(
    alloc: Global,
    name: &str,
    shelf: &mut S,
    out: &mut O,
) -> LayoutEnding
    ensures { spec.ComesOf name.now (spec.around S.Shelf O.Sink shelf.old shelf.new out.old out.new) result }
{
    match fetch(alloc, name, shelf) {
        Ok(text) => put_text(alloc, &text, out),
        Err(ending) => ending,
    }
}

/// Lays out a text on `out`, and answers how the run ended.
fn put_text<O: Sink>(alloc: Global, text: &[u8], out: &mut O) -> LayoutEnding
    ensures { spec.Writes text.now (tells_of O.Sink out.old) (tells_of O.Sink out.new) result }
{
    match lay_out(alloc, text, out) {
        Ok(()) => LayoutEnding::Done,
        Err(cause) => LayoutEnding::from(cause),
    }
}

/// Reads a file that can be laid out, or answers how the run ends.
fn fetch<S: Shelf>(alloc: Global, name: &str, shelf: &mut S) -> Result<Vec<u8>, LayoutEnding>
    ensures { spec.Fetches name.now (S.told shelf.old) (S.faults shelf.old) (S.faults shelf.new) result }
{
    let mut text = Vec::new(alloc);
    match shelf.read(name, &mut text, u64::from(LONGEST_FILE))? {
        Got::Whole => judged(alloc, text),
        Got::TooLong => Err(LayoutEnding::TooLarge),
    }
}

/// The text itself, if it has no bad token.
fn judged(alloc: Global, text: Vec<u8>) -> Result<Vec<u8>, LayoutEnding>
    requires { spec.IsSmall text.items }
    ensures { spec.Judges text.items result }
{
    match bad_token(alloc, &text)? {
        None => Ok(text),
        Some(at) => Err(LayoutEnding::BadToken(at)),
    }
}

/// The place of the first bad token of a text.
fn bad_token(alloc: Global, text: &[u8]) -> Result<Option<At>, AllocError>
    requires { spec.IsSmall text.now }
    ensures { IfOk result (λ at. at ≡ (cut_of text.now).bad_at) }
{
    let tokens = cut(alloc, text)?;
    Ok(tokens.bad_at)
}
