//! Readers of numbers and messages. Each takes the number of brackets that may still be opened.
ghost use Rattle.std.specs.Prelude.{◌≡◌, [], ◌∷◌};
ghost use Rattle.std.specs.Option.{option_map};
ghost use Rattle.layer_ast.specs.Print as print;
ghost use Rattle.layer_words.specs.Signs.{function_sign};
ghost use Rattle.layer_ast.specs.View.{expression_tree, queue_tree, message_tree, built_tree};
ghost use Rattle.layer_words.specs.declared.signs.Sign.TheVariants.{LeftParen, Comma, RightParen};
ghost use Rattle.grammar_laws.specs.Machine.{one, a_name, an_expression, an_index, a_message, a_built};
ghost use Rattle.file_parse.specs.Parts.{print_indices, print_pair, pair_tree, print_row, row_tree};
ghost use Rattle.file_parse.specs.Reading.{Parses, ParsesAll, SeesOneOf};

use crate::readers::{Fault, close, name, open, operator, past, read, room_inside, sign};
use layer_ast::{Built, Expression, Lexed, MessageExpression, Name, Queue, Token};
use layer_words::{Function, Sign, Word};
use std::alloc::Global;

/// The indices of an element: one, or two of a square array.
#[derive(Drop)]
pub struct Element {
    pub row: Expression,
    pub column: Option<Expression>,
}

/// Two numbers with a comma between them.
#[derive(Drop)]
pub struct Pair {
    pub first: Box<Expression>,
    pub second: Box<Expression>,
}

/// A queue and the number of one of its rows, in parentheses.
#[derive(Drop)]
pub struct QueueRow {
    pub queue: Queue,
    pub row: Box<Expression>,
}

/// Reads an expression.
#[tactic(auto, unfolding(layer_ast::specs::Spells::Fits))]
#[cycle(expression)]
pub fn expression(
    alloc: Global,
    room: u32,
    tokens: &[Lexed],
) -> Result<(Expression, &[Lexed]), Fault>
    ensures { Parses print.expression expression_tree an_expression room tokens.now result }
{
    let Some((first, rest)) = tokens.split_first() else {
        return Err(Fault::Refused(0));
    };
    let at = first.at;
    match first.token {
        Token::Name(word) => named(alloc, room, word, *first, rest),
        Token::Number(value) => Ok((Expression::Number { at, value }, rest)),
        Token::Sign(Sign::LeftParen) => binary(alloc, room, *first, rest),
        Token::Sign(Sign::Me) => Ok((Expression::Me { at }, rest)),
        Token::Sign(Sign::N) => Ok((Expression::Members { at }, rest)),
        Token::Sign(Sign::Ltime) => Ok((Expression::Ltime { at }, rest)),
        Token::Sign(Sign::Len) => rows(alloc, room, *first, rest),
        Token::Sign(Sign::AtRow) => item(alloc, room, *first, rest),
        Token::Sign(Sign::Size) => size(alloc, room, *first, rest),
        Token::Sign(Sign::Pick) => pick(alloc, room, *first, rest),
        Token::Sign(Sign::Not) => apply(alloc, room, Function::Not, *first, rest),
        Token::Sign(Sign::Bit) => apply(alloc, room, Function::Bit, *first, rest),
        Token::Sign(Sign::Count) => apply(alloc, room, Function::Count, *first, rest),
        Token::Sign(Sign::Lowest) => apply(alloc, room, Function::Lowest, *first, rest),
        _ => Err(Fault::Refused(tokens.len())),
    }
}

/// Reads an expression into a box, so that a reader holds no tree by value where it may leave.
#[cycle(expression)]
fn boxed(alloc: Global, room: u32, tokens: &[Lexed]) -> Result<(Box<Expression>, &[Lexed]), Fault>
    ensures { Parses print.expression (λ e. expression_tree e.value) an_expression room tokens.now result }
{
    let (value, rest) = read!(expression(alloc, room, tokens));
    let value = Box::new(alloc, value)?;
    Ok((value, rest))
}

/// Reads an expression that begins with a parenthesis, from after the parenthesis.
#[tactic(auto, using(crate::proofs::Fit::fits_first))]
#[cycle(expression)]
fn binary(
    alloc: Global,
    room: u32,
    first: Lexed,
    tokens: &[Lexed],
) -> Result<(Expression, &[Lexed]), Fault>
    requires { first.token ≡ Token.Sign Sign.LeftParen }
    ensures { Parses print.expression expression_tree an_expression room (first ∷ tokens.now) result }
{
    let inside = room_inside(room, tokens)?;
    let (left, rest) = read!(boxed(alloc, inside, tokens));
    let (operator, rest) = read!(operator(rest));
    let (right, rest) = read!(boxed(alloc, inside, rest));
    let rest = read!(close(Sign::RightParen, rest));
    let at = first.at;
    Ok((
        Expression::Binary {
            at,
            left,
            operator,
            right,
        },
        rest,
    ))
}

/// Reads an expression that begins with a name, from after the name.
#[tactic(auto, using(crate::proofs::Fit::fits_first))]
#[cycle(expression)]
fn named(
    alloc: Global,
    room: u32,
    word: Word,
    first: Lexed,
    tokens: &[Lexed],
) -> Result<(Expression, &[Lexed]), Fault>
    requires { first.token ≡ Token.Name word }
    ensures { Parses print.expression expression_tree an_expression room (first ∷ tokens.now) result }
{
    let name = Name { at: first.at, word };
    let Some(rest) = past(Sign::LeftBracket, tokens) else {
        return Ok((Expression::Named { name, index: None }, tokens));
    };
    let inside = room_inside(room, rest)?;
    let (row, rest) = read!(boxed(alloc, inside, rest));
    let rest = read!(close(Sign::RightBracket, rest));
    let (column, rest) = read!(boxed_index(alloc, room, rest));
    let Some(column) = column else {
        let index = Some(row);
        return Ok((Expression::Named { name, index }, rest));
    };
    Ok((Expression::Square { name, row, column }, rest))
}

/// Reads an index in square brackets into a box, where there is one.
#[cycle(expression)]
fn boxed_index(
    alloc: Global,
    room: u32,
    tokens: &[Lexed],
) -> Result<(Option<Box<Expression>>, &[Lexed]), Fault>
    ensures { Parses print.index (option_map (λ e. expression_tree e.value)) an_index room tokens.now result }
{
    let Some(rest) = past(Sign::LeftBracket, tokens) else {
        return Ok((None, tokens));
    };
    let inside = room_inside(room, rest)?;
    let (index, rest) = read!(boxed(alloc, inside, rest));
    let rest = read!(close(Sign::RightBracket, rest));
    Ok((Some(index), rest))
}

/// Reads the indices after a name, where there are any.
pub fn indices(
    alloc: Global,
    room: u32,
    tokens: &[Lexed],
) -> Result<(Option<Element>, &[Lexed]), Fault>
    ensures { ParsesAll print_indices (λ i. i) (an_index ∷ an_index ∷ []) room tokens.now result }
{
    let Some(rest) = past(Sign::LeftBracket, tokens) else {
        return Ok((None, tokens));
    };
    let inside = room_inside(room, rest)?;
    let (row, rest) = read!(expression(alloc, inside, rest));
    let rest = read!(close(Sign::RightBracket, rest), row);
    let (column, rest) = read!(index(alloc, room, rest), row);
    Ok((Some(Element { row, column }), rest))
}

/// Reads an index in square brackets, where there is one.
fn index(
    alloc: Global,
    room: u32,
    tokens: &[Lexed],
) -> Result<(Option<Expression>, &[Lexed]), Fault>
    ensures { Parses print.index (option_map expression_tree) an_index room tokens.now result }
{
    let Some(rest) = past(Sign::LeftBracket, tokens) else {
        return Ok((None, tokens));
    };
    let inside = room_inside(room, rest)?;
    let (index, rest) = read!(expression(alloc, inside, rest));
    let rest = read!(close(Sign::RightBracket, rest), index);
    Ok((Some(index), rest))
}

/// Reads the number of rows of a queue, from after its word.
#[tactic(auto, using(crate::proofs::Fit::fits_first))]
#[cycle(expression)]
fn rows(
    alloc: Global,
    room: u32,
    first: Lexed,
    tokens: &[Lexed],
) -> Result<(Expression, &[Lexed]), Fault>
    requires { first.token ≡ Token.Sign Sign.Len }
    ensures { Parses print.expression expression_tree an_expression room (first ∷ tokens.now) result }
{
    let (inside, rest) = open(room, Sign::LeftParen, tokens)?;
    let (queue, rest) = read!(queue(alloc, inside, rest));
    let rest = read!(close(Sign::RightParen, rest));
    let at = first.at;
    Ok((Expression::Rows { at, queue }, rest))
}

/// Reads an item of a row, from after its word.
#[tactic(auto, using(crate::proofs::Fit::fits_first))]
#[cycle(expression)]
fn item(
    alloc: Global,
    room: u32,
    first: Lexed,
    tokens: &[Lexed],
) -> Result<(Expression, &[Lexed]), Fault>
    requires { first.token ≡ Token.Sign Sign.AtRow }
    ensures { Parses print.expression expression_tree an_expression room (first ∷ tokens.now) result }
{
    let (QueueRow { queue, row }, rest) = read!(row(alloc, room, tokens));
    let rest = read!(sign(Sign::Dot, rest));
    let (label, rest) = read!(name(rest));
    let at = first.at;
    Ok((
        Expression::Item {
            at,
            queue,
            row,
            label,
        },
        rest,
    ))
}

/// Reads the size of a message, from after its word.
#[tactic(auto, using(crate::proofs::Fit::fits_first))]
#[cycle(expression)]
fn size(
    alloc: Global,
    room: u32,
    first: Lexed,
    tokens: &[Lexed],
) -> Result<(Expression, &[Lexed]), Fault>
    requires { first.token ≡ Token.Sign Sign.Size }
    ensures { Parses print.expression expression_tree an_expression room (first ∷ tokens.now) result }
{
    let (inside, rest) = open(room, Sign::LeftParen, tokens)?;
    let (message, rest) = read!(boxed_message(alloc, inside, rest));
    let rest = read!(close(Sign::RightParen, rest));
    let at = first.at;
    Ok((Expression::Size { at, message }, rest))
}

/// Reads a function of one number, from after its word.
#[tactic(auto, using(crate::proofs::Fit::fits_first))]
#[cycle(expression)]
fn apply(
    alloc: Global,
    room: u32,
    function: Function,
    first: Lexed,
    tokens: &[Lexed],
) -> Result<(Expression, &[Lexed]), Fault>
    requires { first.token ≡ Token.Sign (function_sign function) }
    ensures { Parses print.expression expression_tree an_expression room (first ∷ tokens.now) result }
{
    let (inside, rest) = open(room, Sign::LeftParen, tokens)?;
    let (operand, rest) = read!(boxed(alloc, inside, rest));
    let rest = read!(close(Sign::RightParen, rest));
    let at = first.at;
    Ok((
        Expression::Apply {
            at,
            function,
            operand,
        },
        rest,
    ))
}

/// Reads a choice between two numbers, from after its word.
#[tactic(auto, using(crate::proofs::Fit::fits_first))]
#[cycle(expression)]
fn pick(
    alloc: Global,
    room: u32,
    first: Lexed,
    tokens: &[Lexed],
) -> Result<(Expression, &[Lexed]), Fault>
    requires { first.token ≡ Token.Sign Sign.Pick }
    ensures { Parses print.expression expression_tree an_expression room (first ∷ tokens.now) result }
{
    let (inside, rest) = open(room, Sign::LeftParen, tokens)?;
    let (condition, rest) = read!(boxed(alloc, inside, rest));
    let rest = read!(sign(Sign::Comma, rest));
    let (Pair { first: one, second }, rest) = read!(two_expressions(alloc, inside, rest));
    let rest = read!(close(Sign::RightParen, rest));
    let at = first.at;
    Ok((
        Expression::Pick {
            at,
            condition,
            first: one,
            second,
        },
        rest,
    ))
}

/// Reads two numbers with a comma between them.
#[cycle(expression)]
fn two_expressions(alloc: Global, room: u32, tokens: &[Lexed]) -> Result<(Pair, &[Lexed]), Fault>
    ensures { ParsesAll print_pair pair_tree (an_expression ∷ one Comma ∷ an_expression ∷ []) room tokens.now result }
{
    let (first, rest) = read!(boxed(alloc, room, tokens));
    let rest = read!(sign(Sign::Comma, rest));
    let (second, rest) = read!(boxed(alloc, room, rest));
    Ok((Pair { first, second }, rest))
}

/// Reads a queue.
#[cycle(expression)]
pub fn queue(alloc: Global, room: u32, tokens: &[Lexed]) -> Result<(Queue, &[Lexed]), Fault>
    ensures { ParsesAll print.queue queue_tree (a_name ∷ an_index ∷ []) room tokens.now result }
{
    let (name, rest) = read!(name(tokens));
    let (index, rest) = read!(boxed_index(alloc, room, rest));
    Ok((Queue { name, index }, rest))
}

/// Reads a queue and the number of one of its rows, in parentheses.
#[cycle(expression)]
fn row(alloc: Global, room: u32, tokens: &[Lexed]) -> Result<(QueueRow, &[Lexed]), Fault>
    ensures { ParsesAll print_row row_tree (one LeftParen ∷ a_name ∷ an_index ∷ one Comma ∷ an_expression ∷
        one RightParen ∷ []) room tokens.now result }
{
    let (inside, rest) = open(room, Sign::LeftParen, tokens)?;
    let (queue, rest) = read!(queue(alloc, inside, rest));
    let rest = read!(sign(Sign::Comma, rest));
    let (row, rest) = read!(boxed(alloc, inside, rest));
    let rest = read!(close(Sign::RightParen, rest));
    Ok((QueueRow { queue, row }, rest))
}

/// Reads a message.
#[cycle(expression)]
fn message(
    alloc: Global,
    room: u32,
    tokens: &[Lexed],
) -> Result<(MessageExpression, &[Lexed]), Fault>
    ensures { Parses print.message message_tree a_message room tokens.now result }
{
    if begins_name(tokens) {
        let (name, rest) = read!(name(tokens));
        return Ok((MessageExpression::Bare(name), rest));
    }
    let (built, rest) = read!(built(alloc, room, tokens));
    Ok((MessageExpression::Built(built), rest))
}

/// Reads a message into a box.
#[cycle(expression)]
fn boxed_message(
    alloc: Global,
    room: u32,
    tokens: &[Lexed],
) -> Result<(Box<MessageExpression>, &[Lexed]), Fault>
    ensures { Parses print.message (λ m. message_tree m.value) a_message room tokens.now result }
{
    let (value, rest) = read!(message(alloc, room, tokens));
    let value = Box::new(alloc, value)?;
    Ok((value, rest))
}

/// Whether the next token is a name.
fn begins_name(tokens: &[Lexed]) -> bool
    ensures { SeesOneOf a_message (a_name ∷ []) (a_built ∷ []) tokens.now result }
{
    let Some((first, _)) = tokens.split_first() else {
        return false;
    };
    matches!(first.token, Token::Name(_))
}

/// Reads a message that is no bare name.
#[tactic(auto, unfolding(layer_ast::specs::Spells::Fits))]
#[cycle(expression)]
pub fn built(alloc: Global, room: u32, tokens: &[Lexed]) -> Result<(Built, &[Lexed]), Fault>
    ensures { Parses print.built built_tree a_built room tokens.now result }
{
    let Some((first, rest)) = tokens.split_first() else {
        return Err(Fault::Refused(0));
    };
    match first.token {
        Token::Sign(Sign::Nothing) => Ok((Built::Nothing { at: first.at }, rest)),
        Token::Sign(Sign::Held) => held(alloc, room, *first, rest),
        Token::Sign(Sign::Cut) => cut(alloc, room, *first, rest),
        Token::Sign(Sign::Tail) => tail(alloc, room, *first, rest),
        Token::Sign(Sign::Join) => join(alloc, room, *first, rest),
        _ => Err(Fault::Refused(tokens.len())),
    }
}

/// Reads the message of a row, from after its word.
#[tactic(auto, using(crate::proofs::Fit::fits_first))]
#[cycle(expression)]
fn held(
    alloc: Global,
    room: u32,
    first: Lexed,
    tokens: &[Lexed],
) -> Result<(Built, &[Lexed]), Fault>
    requires { first.token ≡ Token.Sign Sign.Held }
    ensures { Parses print.built built_tree a_built room (first ∷ tokens.now) result }
{
    let (QueueRow { queue, row }, rest) = read!(row(alloc, room, tokens));
    let at = first.at;
    Ok((Built::Held { at, queue, row }, rest))
}

/// Reads a range of a part, from after its word.
#[tactic(auto, using(crate::proofs::Fit::fits_first))]
#[cycle(expression)]
fn cut(alloc: Global, room: u32, first: Lexed, tokens: &[Lexed]) -> Result<(Built, &[Lexed]), Fault>
    requires { first.token ≡ Token.Sign Sign.Cut }
    ensures { Parses print.built built_tree a_built room (first ∷ tokens.now) result }
{
    let (inside, rest) = open(room, Sign::LeftParen, tokens)?;
    let (message, rest) = read!(boxed_message(alloc, inside, rest));
    let rest = read!(sign(Sign::Comma, rest));
    let (
        Pair {
            first: from,
            second: length,
        },
        rest,
    ) = read!(two_expressions(alloc, inside, rest));
    let rest = read!(close(Sign::RightParen, rest));
    let at = first.at;
    Ok((
        Built::Cut {
            at,
            message,
            from,
            length,
        },
        rest,
    ))
}

/// Reads what stands after the first bytes of a part, from after its word.
#[tactic(auto, using(crate::proofs::Fit::fits_first))]
#[cycle(expression)]
fn tail(
    alloc: Global,
    room: u32,
    first: Lexed,
    tokens: &[Lexed],
) -> Result<(Built, &[Lexed]), Fault>
    requires { first.token ≡ Token.Sign Sign.Tail }
    ensures { Parses print.built built_tree a_built room (first ∷ tokens.now) result }
{
    let (inside, rest) = open(room, Sign::LeftParen, tokens)?;
    let (message, rest) = read!(boxed_message(alloc, inside, rest));
    let rest = read!(sign(Sign::Comma, rest));
    let (from, rest) = read!(boxed(alloc, inside, rest));
    let rest = read!(close(Sign::RightParen, rest));
    let at = first.at;
    Ok((Built::Tail { at, message, from }, rest))
}

/// Reads a part before a message, from after its word.
#[tactic(auto, using(crate::proofs::Fit::fits_first))]
#[cycle(expression)]
fn join(
    alloc: Global,
    room: u32,
    first: Lexed,
    tokens: &[Lexed],
) -> Result<(Built, &[Lexed]), Fault>
    requires { first.token ≡ Token.Sign Sign.Join }
    ensures { Parses print.built built_tree a_built room (first ∷ tokens.now) result }
{
    let (inside, rest) = open(room, Sign::LeftParen, tokens)?;
    let (one, rest) = read!(boxed_message(alloc, inside, rest));
    let rest = read!(sign(Sign::Comma, rest));
    let (second, rest) = read!(boxed_message(alloc, inside, rest));
    let rest = read!(close(Sign::RightParen, rest));
    let at = first.at;
    Ok((
        Built::Join {
            at,
            first: one,
            second,
        },
        rest,
    ))
}
