//! The reading of layer files: bytes to trees.
#![tactic(auto)]

ghost use Rattle.std.specs.Prelude.{◌≡◌, ◌≤◌, length, Err};
ghost use Rattle.layer_ast.specs.Cut.{text_tokens as cut_of};
ghost use Rattle.layer_ast.specs.Spells.{Spells, longest_file};
ghost use Rattle.layer_ast.specs.View.{file_tree};
ghost use Rattle.file_lex.specs.Pieces.{tokens_of};
ghost use Rattle.grammar_laws.specs.Machine.{refused, run, start};
ghost use Rattle.file_parse.specs.Answers.{Answers};
ghost use Rattle.file_parse.specs.Reading.{ReadsFile};

mod apart;
mod arguments;
mod declarations;
mod error;
mod expressions;
mod files;
mod handlers;
mod library;
mod names;
mod readers;
mod statements;

use apart::by_layers;
pub use error::ParseError;
use file_lex::{Tokens, cut, end_of};
use files::file;
use layer_ast::{File, LONGEST_FILE};
use library::library;
use readers::Fault;
use std::alloc::Global;

/// Reads the file that a text is: the file that it spells, with the library's layers that its places name and that it
/// lacks. A refusal has the first place where the text stops being the beginning of a file.
pub fn parse(alloc: Global, text: &[u8]) -> Result<File, ParseError>
    ensures { Answers text.now result }
{
    if text.len() > LONGEST_FILE as usize {
        return Err(ParseError::TooLarge);
    }
    match by_layers(alloc, text)? {
        Some(file) => brought(alloc, text, file),
        None => read_whole(alloc, text),
    }
}

/// Brings the layers of the library to the file that a text spells.
fn brought(alloc: Global, text: &[u8], file: File) -> Result<File, ParseError>
    requires small { length text.now ≤ longest_file }
    requires spelled { Spells text.now (file_tree file) }
    ensures { Answers text.now result }
{
    let mut file = file;
    file.library = library(alloc, &file.layers, &file.places)?;
    Ok(file)
}

/// Reads the file that a text is, with all its tokens at once, so that a refusal has its place.
fn read_whole(alloc: Global, text: &[u8]) -> Result<File, ParseError>
    requires { length text.now ≤ longest_file }
    ensures { Answers text.now result }
{
    let tokens = cut(alloc, text)?;
    match file(alloc, &tokens.tokens) {
        Ok(file) => complete(alloc, text, &tokens, file),
        Err(Fault::Refused(left)) => Err(refusal(text, &tokens, left)),
        Err(Fault::Memory) => Err(ParseError::Memory),
    }
}

/// Brings the layers of the library to the file that a text's tokens spell.
fn complete(alloc: Global, text: &[u8], tokens: &Tokens, file: File) -> Result<File, ParseError>
    requires small { length text.now ≤ longest_file }
    requires cut { tokens_of tokens.now ≡ cut_of text.now }
    requires read { ReadsFile tokens.now.tokens.items (file_tree file) }
    ensures { Answers text.now result }
{
    if let Some(at) = tokens.bad_at {
        return Err(ParseError::BadToken(at));
    }
    brought(alloc, text, file)
}

/// Why a text is refused with `left` of its tokens left, where no file goes on as it does.
fn refusal(text: &[u8], tokens: &Tokens, left: usize) -> ParseError
    requires small { length text.now ≤ longest_file }
    requires cut { tokens_of tokens.now ≡ cut_of text.now }
    requires refused { run 100 start tokens.now.tokens.items ≡ refused left }
    ensures { Answers text.now (Err result) }
{
    if left > 0 {
        let token = tokens.tokens[tokens.tokens.len() - left];
        return ParseError::Unexpected(token.at);
    }
    match tokens.bad_at {
        Some(at) => ParseError::BadToken(at),
        None => ParseError::Unexpected(end_of(text)),
    }
}
