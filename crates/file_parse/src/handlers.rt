//! Readers of handlers.
ghost use Rattle.std.specs.Prelude.{◌≡◌, ◌<◌, ◌≤◌, [], ◌∷◌, length, map, IfOk, option_map};
ghost use Rattle.layer_ast.specs.Print as print;
ghost use Rattle.layer_words.specs.Signs.{direction_sign};
ghost use Rattle.layer_ast.specs.View.{expected_tree, popped_tree, handler_tree};
ghost use Rattle.grammar_laws.specs.Machine.{a_popped, an_expected, a_handler, handlers as more_handlers};
ghost use Rattle.file_parse.specs.Reading.{Parses, SeesPart};

use crate::expressions::expression;
use crate::names::{names_in_parentheses, some_names_in_parentheses};
use crate::readers::{Fault, kind, name, past, read};
use crate::statements::block;
use layer_ast::{Expected, Handler, Lexed, Popped, Token};
use layer_words::{Dir, Sign};
use std::alloc::Global;

/// Reads handlers as long as one begins.
pub fn handlers(
    alloc: Global,
    room: u32,
    tokens: &[Lexed],
) -> Result<(Vec<Handler>, &[Lexed]), Fault>
    ensures { Parses print.handlers (λ v. map handler_tree v.items) more_handlers room tokens.now result }
{
    let mut all = Vec::new(alloc);
    let mut rest = tokens;
    while begins_handler(rest) {
        let (next, following) = read!(handler(alloc, room, rest));
        all.push(next)?;
        rest = following;
    }
    Ok((all, rest))
}

/// Whether the next token begins a handler.
fn begins_handler(tokens: &[Lexed]) -> bool
    ensures { SeesPart more_handlers (a_handler ∷ more_handlers ∷ []) tokens.now result }
{
    let Some((first, _)) = tokens.split_first() else {
        return false;
    };
    matches!(first.token, Token::Sign(Sign::Up | Sign::Down))
}

fn handler(alloc: Global, room: u32, tokens: &[Lexed]) -> Result<(Handler, &[Lexed]), Fault>
    ensures read { Parses print.handler handler_tree a_handler room tokens.now result }
    ensures shorter { IfOk result (λ r. length r.1.now < length tokens.now) }
{
    let Some((first, rest)) = tokens.split_first() else {
        return Err(Fault::Refused(0));
    };
    match first.token {
        Token::Sign(Sign::Up) => handling(alloc, room, Dir::Up, *first, rest),
        Token::Sign(Sign::Down) => handling(alloc, room, Dir::Down, *first, rest),
        _ => Err(Fault::Refused(tokens.len())),
    }
}

/// Reads a handler from after its first word.
#[tactic(auto, using(crate::proofs::Fit::fits_first))]
fn handling(
    alloc: Global,
    room: u32,
    direction: Dir,
    first: Lexed,
    tokens: &[Lexed],
) -> Result<(Handler, &[Lexed]), Fault>
    requires { first.token ≡ Token.Sign (direction_sign direction) }
    ensures read { Parses print.handler handler_tree a_handler room (first ∷ tokens.now) result }
    ensures shorter { IfOk result (λ r. length r.1.now ≤ length tokens.now) }
{
    let (kind, rest) = read!(kind(tokens));
    let (names, rest) = read!(names_in_parentheses(alloc, room, rest));
    let (popped, rest) = read!(popped(alloc, room, rest), names);
    let (expected, rest) = read!(expected(alloc, room, rest), names, popped);
    let (block, rest) = read!(block(alloc, room, rest), names, popped, expected);
    let at = first.at;
    Ok((
        Handler {
            at,
            direction,
            kind,
            names,
            popped,
            expected,
            block,
        },
        rest,
    ))
}

/// Reads the header that a handler takes off, where it does.
fn popped(alloc: Global, room: u32, tokens: &[Lexed]) -> Result<(Option<Popped>, &[Lexed]), Fault>
    ensures { Parses print.popped (option_map popped_tree) a_popped room tokens.now result }
{
    let Some(rest) = past(Sign::With, tokens) else {
        return Ok((None, tokens));
    };
    let (name, rest) = read!(name(rest));
    let (fields, rest) = read!(some_names_in_parentheses(alloc, room, rest));
    Ok((Some(Popped { name, fields }), rest))
}

/// Reads when a handler is predicted, where it isn't always.
#[tactic(auto, unfolding(layer_ast::specs::Spells::Fits))]
fn expected(alloc: Global, room: u32, tokens: &[Lexed]) -> Result<(Expected, &[Lexed]), Fault>
    ensures { Parses print.expected expected_tree an_expected room tokens.now result }
{
    let Some((first, rest)) = tokens.split_first() else {
        return Ok((Expected::Always, tokens));
    };
    match first.token {
        Token::Sign(Sign::Rare) => Ok((Expected::Rare, rest)),
        Token::Sign(Sign::Common) => common(alloc, room, *first, rest),
        _ => Ok((Expected::Always, tokens)),
    }
}

/// Reads the condition of a handler that is common, from after its word.
#[tactic(auto, using(crate::proofs::Fit::fits_first))]
fn common(
    alloc: Global,
    room: u32,
    first: Lexed,
    tokens: &[Lexed],
) -> Result<(Expected, &[Lexed]), Fault>
    requires { first.token ≡ Token.Sign Sign.Common }
    ensures { Parses print.expected expected_tree an_expected room (first ∷ tokens.now) result }
{
    let (condition, rest) = read!(expression(alloc, room, tokens));
    Ok((Expected::Common(condition), rest))
}
