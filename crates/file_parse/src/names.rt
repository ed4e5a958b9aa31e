//! Readers of lists of names.
ghost use Rattle.std.specs.Option.{option_map};
ghost use Rattle.layer_ast.specs.Print as print;
ghost use Rattle.layer_ast.specs.View.{names_tree};
ghost use Rattle.layer_words.specs.declared.signs.Sign.TheVariants.{LeftParen, RightParen};
ghost use Rattle.grammar_laws.specs.Machine.{one, a_name, more_names as names_after, some_names as one_or_no_names};
ghost use Rattle.std.specs.Prelude.{[], ◌∷◌};
ghost use Rattle.file_parse.specs.Parts.{names_within, some_names_within};
ghost use Rattle.file_parse.specs.Reading.{ParsesAll, ParsesFlat, ParsesAllFlat, SeesPart};

use crate::readers::{Fault, close, name, open, past, push_item, read};
use layer_ast::{Lexed, Name, Names, Token};
use layer_words::Sign;
use std::alloc::Global;

/// Reads names, each after a comma, as long as there is a comma.
fn more_names(alloc: Global, tokens: &[Lexed]) -> Result<(Vec<Name>, &[Lexed]), Fault>
    ensures { ParsesFlat print.more_names (λ v. v.items) names_after tokens.now result }
{
    let mut all = Vec::new(alloc);
    let mut rest = tokens;
    while let Some(following) = past(Sign::Comma, rest) {
        let (next, following) = read!(name(following));
        push_item(&mut all, next)?;
        rest = following;
    }
    Ok((all, rest))
}

/// Reads names with commas between them.
fn names(alloc: Global, tokens: &[Lexed]) -> Result<(Names, &[Lexed]), Fault>
    ensures { ParsesAllFlat print.names names_tree (a_name ∷ names_after ∷ []) tokens.now result }
{
    let (first, rest) = read!(name(tokens));
    let (more, rest) = more_names(alloc, rest)?;
    Ok((Names { first, rest: more }, rest))
}

/// Reads names with commas between them, in parentheses.
pub fn names_in_parentheses(
    alloc: Global,
    room: u32,
    tokens: &[Lexed],
) -> Result<(Names, &[Lexed]), Fault>
    ensures { ParsesAll names_within names_tree (one LeftParen ∷ a_name ∷ names_after ∷ one RightParen ∷ []) room
        tokens.now result }
{
    let (_, rest) = open(room, Sign::LeftParen, tokens)?;
    let (names, rest) = names(alloc, rest)?;
    let rest = close(Sign::RightParen, rest)?;
    Ok((names, rest))
}

/// Reads names with commas between them, in parentheses, or empty parentheses.
pub fn some_names_in_parentheses(
    alloc: Global,
    room: u32,
    tokens: &[Lexed],
) -> Result<(Option<Names>, &[Lexed]), Fault>
    ensures { ParsesAll some_names_within
        (option_map names_tree) (one LeftParen ∷ one_or_no_names ∷ one RightParen ∷ []) room tokens.now result }
{
    let (_, rest) = open(room, Sign::LeftParen, tokens)?;
    let (names, rest) = some_names(alloc, rest)?;
    let rest = close(Sign::RightParen, rest)?;
    Ok((names, rest))
}

/// Reads names with commas between them, where there are any.
fn some_names(alloc: Global, tokens: &[Lexed]) -> Result<(Option<Names>, &[Lexed]), Fault>
    ensures { ParsesFlat print.some_names (option_map names_tree) one_or_no_names tokens.now result }
{
    if !begins_name(tokens) {
        return Ok((None, tokens));
    }
    let (fields, rest) = names(alloc, tokens)?;
    Ok((Some(fields), rest))
}

/// Whether the next token is a name.
fn begins_name(tokens: &[Lexed]) -> bool
    ensures { SeesPart one_or_no_names (a_name ∷ names_after ∷ []) tokens.now result }
{
    let Some((first, _)) = tokens.split_first() else {
        return false;
    };
    matches!(first.token, Token::Name(_))
}
