//! Readers of declarations.
ghost use Rattle.std.specs.Prelude.{◌≡◌, ◌<◌, ◌≤◌, [], ◌∷◌, length, map, IfOk, option_map};
ghost use Rattle.layer_ast.specs.Print as print;
ghost use Rattle.layer_ast.specs.View.{expression_tree, item_tree, items_tree, declaration_tree};
ghost use Rattle.layer_words.specs.declared.signs.Sign.TheVariants.{N, Of, LeftBracket, RightBracket, LeftParen};
ghost use Rattle.layer_words.specs.declared.signs.Sign.TheVariants.{RightParen, Colon, Semicolon};
ghost use Rattle.grammar_laws.specs.Machine.{one, a_name, a_sort, a_size, a_square, a_shape, an_initial, a_capacity};
ghost use Rattle.grammar_laws.specs.Machine.{an_item, more_items as items_after, a_declaration};
ghost use Rattle.grammar_laws.specs.Machine.{declarations as more_declarations};
ghost use Rattle.file_parse.specs.Parts.{QueuePrints, print_square, print_capacity, capacity_tree, print_items};
ghost use Rattle.file_parse.specs.Reading.{Parses, ParsesAll, ParsesFlat, ParsesAllFlat, SeesPart, SeesOneOf};

use crate::expressions::expression;
use crate::names::some_names_in_parentheses;
use crate::readers::{
    Fault, close, ending, name, number, open, past, read, room_inside, sign, size, sort,
};
use layer_ast::{Declaration, Expression, Item, Items, Lexed, Name, Size, Token};
use layer_words::{At, Shape, Sign};
use std::alloc::Global;

/// The capacity of a queue, or of each queue of an array of queues.
#[derive(Clone, Copy)]
pub enum QueueCapacity {
    One(Size),
    OfArray(Size),
}

/// Reads declarations as long as one begins.
pub fn declarations(
    alloc: Global,
    room: u32,
    tokens: &[Lexed],
) -> Result<(Vec<Declaration>, &[Lexed]), Fault>
    ensures { Parses print.declarations (λ v. map declaration_tree v.items) more_declarations room tokens.now result }
{
    let mut all = Vec::new(alloc);
    let mut rest = tokens;
    while begins_declaration(rest) {
        let (next, following) = read!(declaration(alloc, room, rest));
        all.push(next)?;
        rest = following;
    }
    Ok((all, rest))
}

/// Whether the next token begins a declaration.
fn begins_declaration(tokens: &[Lexed]) -> bool
    ensures { SeesPart more_declarations (a_declaration ∷ more_declarations ∷ []) tokens.now result }
{
    let Some((first, _)) = tokens.split_first() else {
        return false;
    };
    matches!(
        first.token,
        Token::Sign(Sign::Param | Sign::State | Sign::Header)
    )
}

fn declaration(alloc: Global, room: u32, tokens: &[Lexed]) -> Result<(Declaration, &[Lexed]), Fault>
    ensures read { Parses print.declaration declaration_tree a_declaration room tokens.now result }
    ensures shorter { IfOk result (λ r. length r.1.now < length tokens.now) }
{
    let Some((first, rest)) = tokens.split_first() else {
        return Err(Fault::Refused(0));
    };
    match first.token {
        Token::Sign(Sign::Param) => param(*first, rest),
        Token::Sign(Sign::State) => cell(alloc, room, *first, rest),
        Token::Sign(Sign::Header) => header(alloc, room, *first, rest),
        _ => Err(Fault::Refused(tokens.len())),
    }
}

/// Reads the declaration of a param from after its first word.
#[tactic(auto, using(crate::proofs::Fit::fits_first))]
fn param(first: Lexed, tokens: &[Lexed]) -> Result<(Declaration, &[Lexed]), Fault>
    requires { first.token ≡ Token.Sign Sign.Param }
    ensures read { ParsesFlat print.declaration declaration_tree a_declaration (first ∷ tokens.now) result }
    ensures shorter { IfOk result (λ r. length r.1.now ≤ length tokens.now) }
{
    let (name, rest) = read!(name(tokens));
    let rest = read!(sign(Sign::Assign, rest));
    let (value, rest) = read!(number(rest));
    let rest = read!(sign(Sign::Semicolon, rest));
    let at = first.at;
    Ok((Declaration::Param { at, name, value }, rest))
}

/// Reads the declaration of a cell from after its first word.
#[tactic(auto, using(crate::proofs::Fit::fits_first))]
fn cell(
    alloc: Global,
    room: u32,
    first: Lexed,
    tokens: &[Lexed],
) -> Result<(Declaration, &[Lexed]), Fault>
    requires { first.token ≡ Token.Sign Sign.State }
    ensures read { Parses print.declaration declaration_tree a_declaration room (first ∷ tokens.now) result }
    ensures shorter { IfOk result (λ r. length r.1.now ≤ length tokens.now) }
{
    let Some((second, rest)) = tokens.split_first() else {
        return Err(Fault::Refused(0));
    };
    match second.token {
        Token::Sign(Sign::Int) => int(alloc, room, first, *second, rest),
        Token::Sign(Sign::Queue) => queue(alloc, room, first, *second, rest),
        _ => Err(Fault::Refused(tokens.len())),
    }
}

/// Reads the declaration of a cell of numbers from after its first two words.
#[tactic(auto, using(crate::proofs::Fit::fits_first))]
fn int(
    alloc: Global,
    room: u32,
    first: Lexed,
    second: Lexed,
    tokens: &[Lexed],
) -> Result<(Declaration, &[Lexed]), Fault>
    requires state { first.token ≡ Token.Sign Sign.State }
    requires word { second.token ≡ Token.Sign Sign.Int }
    ensures read { Parses print.declaration declaration_tree a_declaration room (first ∷ second ∷ tokens.now) result }
    ensures shorter { IfOk result (λ r. length r.1.now ≤ length tokens.now) }
{
    let (name, rest) = read!(name(tokens));
    let (shape, rest) = read!(shape(room, rest));
    let (initial, rest) = read!(initial(alloc, room, rest));
    let rest = read!(sign(Sign::Semicolon, rest), initial);
    let at = first.at;
    Ok((
        Declaration::Int {
            at,
            name,
            shape,
            initial,
        },
        rest,
    ))
}

/// Reads what says that a cell is an array or a square array, where it does.
fn shape(room: u32, tokens: &[Lexed]) -> Result<(Shape, &[Lexed]), Fault>
    ensures { Parses print.shape (λ s. s) a_shape room tokens.now result }
{
    let Some(rest) = past(Sign::LeftBracket, tokens) else {
        return Ok((Shape::One, tokens));
    };
    let _ = room_inside(room, rest)?;
    let rest = read!(sign(Sign::N, rest));
    let (is_square, rest) = square(rest)?;
    let rest = read!(close(Sign::RightBracket, rest));
    if is_square {
        return Ok((Shape::Square, rest));
    }
    Ok((Shape::Array, rest))
}

/// Reads what says that an array is square, where it does, and answers whether it does.
fn square(tokens: &[Lexed]) -> Result<(bool, &[Lexed]), Fault>
    ensures { ParsesFlat print_square (λ s. s) a_square tokens.now result }
{
    let Some(rest) = past(Sign::Star, tokens) else {
        return Ok((false, tokens));
    };
    let rest = read!(sign(Sign::N, rest));
    Ok((true, rest))
}

/// Reads the initial value of a cell, where there is one.
fn initial(
    alloc: Global,
    room: u32,
    tokens: &[Lexed],
) -> Result<(Option<Expression>, &[Lexed]), Fault>
    ensures { Parses print.initial (option_map expression_tree) an_initial room tokens.now result }
{
    let Some(rest) = past(Sign::Assign, tokens) else {
        return Ok((None, tokens));
    };
    let (value, rest) = read!(expression(alloc, room, rest));
    Ok((Some(value), rest))
}

/// Reads the declaration of a queue, or of an array of queues, from after its first two words.
#[tactic(auto, using(crate::proofs::Fit::fits_first))]
fn queue(
    alloc: Global,
    room: u32,
    first: Lexed,
    second: Lexed,
    tokens: &[Lexed],
) -> Result<(Declaration, &[Lexed]), Fault>
    requires state { first.token ≡ Token.Sign Sign.State }
    requires word { second.token ≡ Token.Sign Sign.Queue }
    ensures read { Parses print.declaration declaration_tree a_declaration room (first ∷ second ∷ tokens.now) result }
    ensures shorter { IfOk result (λ r. length r.1.now ≤ length tokens.now) }
{
    let (name, rest) = read!(name(tokens));
    let (capacity, rest) = read!(capacity(room, rest));
    let (items, rest) = read!(items(alloc, room, rest));
    Ok((queue_of(first.at, name, capacity, items), rest))
}

/// The declaration of a queue, or of an array of queues.
fn queue_of(at: At, name: Name, capacity: QueueCapacity, items: Items) -> Declaration
    ensures { QueuePrints at name capacity items result }
{
    match capacity {
        QueueCapacity::One(capacity) => Declaration::Queue {
            at,
            name,
            capacity,
            items,
        },
        QueueCapacity::OfArray(capacity) => Declaration::Queues {
            at,
            name,
            capacity,
            items,
        },
    }
}

/// Reads the capacity of a queue in square brackets, after `[n]` for an array of queues.
fn capacity(room: u32, tokens: &[Lexed]) -> Result<(QueueCapacity, &[Lexed]), Fault>
    ensures { ParsesAll print_capacity capacity_tree (one LeftBracket ∷ a_capacity ∷ one RightBracket ∷ []) room
        tokens.now result }
{
    let Some((_, following)) = tokens.split_first() else {
        return Err(Fault::Refused(0));
    };
    if begins_array(following) {
        capacity_of_array(room, tokens)
    } else {
        capacity_of_one(room, tokens)
    }
}

/// Reads the capacity of the queues of an array in square brackets, after `[n]`.
fn capacity_of_array(room: u32, tokens: &[Lexed]) -> Result<(QueueCapacity, &[Lexed]), Fault>
    ensures { ParsesAll print_capacity capacity_tree
        (one LeftBracket ∷ one N ∷ one RightBracket ∷ one LeftBracket ∷ a_size ∷ one RightBracket ∷ []) room tokens.now
        result }
{
    let (_, rest) = read!(open(room, Sign::LeftBracket, tokens));
    let rest = read!(sign(Sign::N, rest));
    let rest = read!(close(Sign::RightBracket, rest));
    let (_, rest) = read!(open(room, Sign::LeftBracket, rest));
    let (size, rest) = read!(size(rest));
    let rest = read!(close(Sign::RightBracket, rest));
    Ok((QueueCapacity::OfArray(size), rest))
}

/// Reads the capacity of a single queue in square brackets.
fn capacity_of_one(room: u32, tokens: &[Lexed]) -> Result<(QueueCapacity, &[Lexed]), Fault>
    ensures { ParsesAll print_capacity capacity_tree (one LeftBracket ∷ a_size ∷ one RightBracket ∷ []) room tokens.now
        result }
{
    let (_, rest) = read!(open(room, Sign::LeftBracket, tokens));
    let (size, rest) = read!(size(rest));
    let rest = read!(close(Sign::RightBracket, rest));
    Ok((QueueCapacity::One(size), rest))
}

/// Whether a capacity is that of an array of queues.
fn begins_array(tokens: &[Lexed]) -> bool
    ensures { SeesOneOf a_capacity (one N ∷ one RightBracket ∷ one LeftBracket ∷ a_size ∷ []) (a_size ∷ []) tokens.now
        result }
{
    let Some((first, _)) = tokens.split_first() else {
        return false;
    };
    matches!(first.token, Token::Sign(Sign::N))
}

/// Reads the items of a queue's rows to the end of its declaration.
fn items(alloc: Global, room: u32, tokens: &[Lexed]) -> Result<(Items, &[Lexed]), Fault>
    ensures { ParsesAll print_items items_tree
        (one Of ∷ one LeftParen ∷ a_name ∷ one Colon ∷ a_sort ∷ items_after ∷ one RightParen ∷ one Semicolon ∷ []) room
        tokens.now result }
{
    let rest = read!(sign(Sign::Of, tokens));
    let (_, rest) = read!(open(room, Sign::LeftParen, rest));
    let (first, rest) = read!(item(rest));
    let (more, rest) = read!(more_items(alloc, rest));
    let rest = read!(close(Sign::RightParen, rest), more);
    let rest = read!(sign(Sign::Semicolon, rest), more);
    Ok((Items { first, rest: more }, rest))
}

/// Reads items, each after a comma, as long as there is a comma.
fn more_items(alloc: Global, tokens: &[Lexed]) -> Result<(Vec<Item>, &[Lexed]), Fault>
    ensures { ParsesFlat print.more_items (λ v. map item_tree v.items) items_after tokens.now result }
{
    let mut all = Vec::new(alloc);
    let mut rest = tokens;
    while let Some(following) = past(Sign::Comma, rest) {
        let (next, following) = read!(item(following));
        all.push(next)?;
        rest = following;
    }
    Ok((all, rest))
}

/// Reads an item of a queue's rows.
fn item(tokens: &[Lexed]) -> Result<(Item, &[Lexed]), Fault>
    ensures { ParsesAllFlat print.item item_tree an_item tokens.now result }
{
    let (name, rest) = read!(name(tokens));
    let rest = read!(sign(Sign::Colon, rest));
    let (sort, rest) = read!(sort(rest));
    Ok((Item { name, sort }, rest))
}

/// Reads the declaration of a header from after its first word.
#[tactic(auto, using(crate::proofs::Fit::fits_first))]
fn header(
    alloc: Global,
    room: u32,
    first: Lexed,
    tokens: &[Lexed],
) -> Result<(Declaration, &[Lexed]), Fault>
    requires { first.token ≡ Token.Sign Sign.Header }
    ensures read { Parses print.declaration declaration_tree a_declaration room (first ∷ tokens.now) result }
    ensures shorter { IfOk result (λ r. length r.1.now ≤ length tokens.now) }
{
    let (name, rest) = read!(name(tokens));
    let (fields, rest) = read!(some_names_in_parentheses(alloc, room, rest));
    let (ending, rest) = read!(ending(rest), fields);
    let rest = read!(sign(Sign::Semicolon, rest), fields);
    let at = first.at;
    Ok((
        Declaration::Header {
            at,
            name,
            fields,
            ending,
        },
        rest,
    ))
}
