//! Readers of arguments.
ghost use Rattle.std.specs.Prelude.{[], ◌∷◌, map};
ghost use Rattle.std.specs.Option.{option_map};
ghost use Rattle.layer_ast.specs.Print as print;
ghost use Rattle.layer_ast.specs.View.{argument_tree, arguments_tree};
ghost use Rattle.layer_words.specs.declared.signs.Sign.TheVariants.{LeftParen, RightParen};
ghost use Rattle.grammar_laws.specs.Machine.{one, an_expression, a_built, an_argument};
ghost use Rattle.grammar_laws.specs.Machine.{more_arguments as arguments_after, some_arguments as one_or_no_arguments};
ghost use Rattle.file_parse.specs.Parts.{arguments_within, some_arguments_within};
ghost use Rattle.file_parse.specs.Reading.{Parses, ParsesAll, SeesPart, SeesOneOf};

use crate::expressions::{built, expression};
use crate::readers::{Fault, close, open, past, push_item, read};
use layer_ast::{Argument, Arguments, Lexed, Token};
use layer_words::Sign;
use std::alloc::Global;

/// Reads arguments with commas between them, in parentheses.
pub fn arguments_in_parentheses(
    alloc: Global,
    room: u32,
    tokens: &[Lexed],
) -> Result<(Arguments, &[Lexed]), Fault>
    ensures { ParsesAll arguments_within
        arguments_tree (one LeftParen ∷ an_argument ∷ arguments_after ∷ one RightParen ∷ []) room tokens.now result }
{
    let (inside, rest) = read!(open(room, Sign::LeftParen, tokens));
    let (arguments, rest) = read!(arguments(alloc, inside, rest));
    let rest = read!(close(Sign::RightParen, rest), arguments);
    Ok((arguments, rest))
}

/// Reads arguments with commas between them, in parentheses, or empty parentheses.
pub fn some_arguments_in_parentheses(
    alloc: Global,
    room: u32,
    tokens: &[Lexed],
) -> Result<(Option<Arguments>, &[Lexed]), Fault>
    ensures { ParsesAll some_arguments_within
        (option_map arguments_tree) (one LeftParen ∷ one_or_no_arguments ∷ one RightParen ∷ []) room tokens.now result }
{
    let (inside, rest) = read!(open(room, Sign::LeftParen, tokens));
    let (arguments, rest) = read!(some_arguments(alloc, inside, rest));
    let rest = read!(close(Sign::RightParen, rest), arguments);
    Ok((arguments, rest))
}

/// Reads arguments with commas between them, where there are any.
fn some_arguments(
    alloc: Global,
    room: u32,
    tokens: &[Lexed],
) -> Result<(Option<Arguments>, &[Lexed]), Fault>
    ensures { Parses print.some_arguments (option_map arguments_tree) one_or_no_arguments room tokens.now result }
{
    if !begins_argument(tokens) {
        return Ok((None, tokens));
    }
    let (fields, rest) = read!(arguments(alloc, room, tokens));
    Ok((Some(fields), rest))
}

/// Whether the next token begins an argument.
fn begins_argument(tokens: &[Lexed]) -> bool
    ensures { SeesPart one_or_no_arguments (an_argument ∷ arguments_after ∷ []) tokens.now result }
{
    let Some((first, _)) = tokens.split_first() else {
        return false;
    };
    match first.token {
        Token::Number(_) | Token::Name(_) => true,
        Token::Sign(Sign::LeftParen | Sign::Me | Sign::N | Sign::Ltime) => true,
        Token::Sign(Sign::Len | Sign::AtRow | Sign::Size | Sign::Pick) => true,
        Token::Sign(Sign::Not | Sign::Bit | Sign::Count | Sign::Lowest) => true,
        Token::Sign(Sign::Nothing | Sign::Held | Sign::Cut | Sign::Tail | Sign::Join) => true,
        _ => false,
    }
}

/// Reads arguments with commas between them.
fn arguments(alloc: Global, room: u32, tokens: &[Lexed]) -> Result<(Arguments, &[Lexed]), Fault>
    ensures { ParsesAll print.arguments arguments_tree (an_argument ∷ arguments_after ∷ []) room tokens.now result }
{
    let (first, rest) = read!(argument(alloc, room, tokens));
    let (more, rest) = read!(more_arguments(alloc, room, rest), first);
    Ok((Arguments { first, rest: more }, rest))
}

/// Reads arguments, each after a comma, as long as there is a comma.
fn more_arguments(
    alloc: Global,
    room: u32,
    tokens: &[Lexed],
) -> Result<(Vec<Argument>, &[Lexed]), Fault>
    ensures { Parses print.more_arguments (λ v. map argument_tree v.items) arguments_after room tokens.now result }
{
    let mut all = Vec::new(alloc);
    let mut rest = tokens;
    while let Some(following) = past(Sign::Comma, rest) {
        let (next, following) = read!(argument(alloc, room, following));
        push_item(&mut all, next)?;
        rest = following;
    }
    Ok((all, rest))
}

/// Reads an argument.
fn argument(alloc: Global, room: u32, tokens: &[Lexed]) -> Result<(Argument, &[Lexed]), Fault>
    ensures { Parses print.argument argument_tree an_argument room tokens.now result }
{
    if begins_built(tokens) {
        let (content, rest) = read!(built(alloc, room, tokens));
        return Ok((Argument::Content(content), rest));
    }
    let (value, rest) = read!(expression(alloc, room, tokens));
    Ok((Argument::Value(value), rest))
}

/// Whether the next token begins a message that is no bare name.
fn begins_built(tokens: &[Lexed]) -> bool
    ensures { SeesOneOf an_argument (a_built ∷ []) (an_expression ∷ []) tokens.now result }
{
    let Some((first, _)) = tokens.split_first() else {
        return false;
    };
    matches!(
        first.token,
        Token::Sign(Sign::Nothing | Sign::Held | Sign::Cut | Sign::Tail | Sign::Join)
    )
}
