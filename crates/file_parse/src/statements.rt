//! Readers of statements and blocks.
ghost use Rattle.std.specs.Prelude.{◌≡◌, ◌<◌, ◌≤◌, [], ◌∷◌, length, IfOk, option_map};
ghost use Rattle.layer_ast.specs.Print as print;
ghost use Rattle.layer_words.specs.Signs.{direction_sign};
ghost use Rattle.layer_ast.specs.View.{expression_tree, pushed_tree, statement_tree, statement_trees, block_tree};
ghost use Rattle.layer_words.specs.declared.signs.Sign.TheVariants.{Assign, Else, Semicolon};
ghost use Rattle.grammar_laws.specs.Machine.{one, an_expression, a_likely, a_pushed, an_otherwise, a_statement};
ghost use Rattle.grammar_laws.specs.Machine.{statements as more_statements, a_block};
ghost use Rattle.grammar_laws.specs.Parts.{otherwise as print_otherwise};
ghost use Rattle.file_parse.specs.Parts.{AssignmentPrints, DecisionPrints, block_after_else, print_assigned};
ghost use Rattle.file_parse.specs.Reading.{Parses, ParsesAll, ReadsFlat, SeesPart};

use crate::arguments::{arguments_in_parentheses, some_arguments_in_parentheses};
use crate::expressions::{Element, expression, indices, queue};
use crate::names::names_in_parentheses;
use crate::readers::{Fault, close, kind, name, open, past, push_item, read, sign, size};
use layer_ast::{Block, Expression, Lexed, Name, Pushed, Statement, Token};
use layer_words::{At, Dir, Likely, Sign};
use std::alloc::Global;

/// Reads statements in braces.
#[cycle(statement)]
pub fn block(alloc: Global, room: u32, tokens: &[Lexed]) -> Result<(Block, &[Lexed]), Fault>
    ensures { ParsesAll print.block block_tree a_block room tokens.now result }
{
    let (inside, rest) = read!(open(room, Sign::LeftBrace, tokens));
    let (statements, rest) = read!(statements(alloc, inside, rest));
    let rest = read!(close(Sign::RightBrace, rest), statements);
    Ok((Block { statements }, rest))
}

/// Reads statements as long as one begins.
#[cycle(statement)]
fn statements(
    alloc: Global,
    room: u32,
    tokens: &[Lexed],
) -> Result<(Vec<Statement>, &[Lexed]), Fault>
    ensures { Parses print.statements (λ v. statement_trees v.items) more_statements room tokens.now result }
{
    let mut all = Vec::new(alloc);
    let mut rest = tokens;
    while begins_statement(rest) {
        let (next, following) = statement(alloc, room, rest)?;
        push_item(&mut all, next)?;
        rest = following;
    }
    Ok((all, rest))
}

/// Whether the next token begins a statement.
fn begins_statement(tokens: &[Lexed]) -> bool
    ensures { SeesPart more_statements (a_statement ∷ more_statements ∷ []) tokens.now result }
{
    let Some((first, _)) = tokens.split_first() else {
        return false;
    };
    match first.token {
        Token::Sign(Sign::Let | Sign::Set | Sign::Push | Sign::Take) => true,
        Token::Sign(Sign::If | Sign::Each | Sign::Up | Sign::Down) => true,
        _ => false,
    }
}

#[cycle(statement)]
fn statement(alloc: Global, room: u32, tokens: &[Lexed]) -> Result<(Statement, &[Lexed]), Fault>
    ensures read { Parses print.statement statement_tree a_statement room tokens.now result }
    ensures shorter { IfOk result (λ r. length r.1.now < length tokens.now) }
{
    let Some((first, rest)) = tokens.split_first() else {
        return Err(Fault::Refused(0));
    };
    match first.token {
        Token::Sign(Sign::Let) => bind(alloc, room, *first, rest),
        Token::Sign(Sign::Set) => set(alloc, room, *first, rest),
        Token::Sign(Sign::Push) => push(alloc, room, *first, rest),
        Token::Sign(Sign::Take) => take(alloc, room, *first, rest),
        Token::Sign(Sign::If) => condition(alloc, room, *first, rest),
        Token::Sign(Sign::Each) => each(alloc, room, *first, rest),
        Token::Sign(Sign::Up) => emission(alloc, room, Dir::Up, *first, rest),
        Token::Sign(Sign::Down) => emission(alloc, room, Dir::Down, *first, rest),
        _ => Err(Fault::Refused(tokens.len())),
    }
}

/// Reads a name for a number, from after its first word.
#[tactic(auto, using(crate::proofs::Fit::fits_first, layer_ast::proofs::StatementViews::bind_tree))]
fn bind(
    alloc: Global,
    room: u32,
    first: Lexed,
    tokens: &[Lexed],
) -> Result<(Statement, &[Lexed]), Fault>
    requires { first.token ≡ Token.Sign Sign.Let }
    ensures read { Parses print.statement statement_tree a_statement room (first ∷ tokens.now) result }
    ensures shorter { IfOk result (λ r. length r.1.now ≤ length tokens.now) }
{
    let (name, rest) = read!(name(tokens));
    let (value, rest) = read!(assigned(alloc, room, rest));
    let at = first.at;
    Ok((Statement::Let { at, name, value }, rest))
}

/// Reads an assignment from after its first word.
#[tactic(auto, using(crate::proofs::Fit::fits_first, layer_ast::proofs::StatementViews::set_tree))]
fn set(
    alloc: Global,
    room: u32,
    first: Lexed,
    tokens: &[Lexed],
) -> Result<(Statement, &[Lexed]), Fault>
    requires { first.token ≡ Token.Sign Sign.Set }
    ensures read { Parses print.statement statement_tree a_statement room (first ∷ tokens.now) result }
    ensures shorter { IfOk result (λ r. length r.1.now ≤ length tokens.now) }
{
    let (name, rest) = read!(name(tokens));
    let Some(_) = past(Sign::LeftBracket, rest) else {
        let (value, rest) = read!(assigned(alloc, room, rest));
        let at = first.at;
        let index = None;
        return Ok((
            Statement::Set {
                at,
                name,
                index,
                value,
            },
            rest,
        ));
    };
    let (indices, rest) = read!(indices(alloc, room, rest));
    let (value, rest) = read!(assigned(alloc, room, rest), indices);
    Ok((assignment(first.at, name, indices, value), rest))
}

/// Reads what is assigned, to the end of a statement.
fn assigned(alloc: Global, room: u32, tokens: &[Lexed]) -> Result<(Expression, &[Lexed]), Fault>
    ensures { ParsesAll print_assigned expression_tree (one Assign ∷ an_expression ∷ one Semicolon ∷ []) room tokens.now
        result }
{
    let rest = read!(sign(Sign::Assign, tokens));
    let (value, rest) = read!(expression(alloc, room, rest));
    let rest = read!(sign(Sign::Semicolon, rest), value);
    Ok((value, rest))
}

/// The assignment of a value to a cell, or to the element of an array that has these indices.
#[tactic(auto, using(layer_ast::proofs::StatementViews::set_tree, layer_ast::proofs::StatementViews::set_square_tree))]
fn assignment(at: At, name: Name, indices: Option<Element>, value: Expression) -> Statement
    ensures { AssignmentPrints at name indices value result }
{
    let Some(Element { row, column }) = indices else {
        return Statement::Set {
            at,
            name,
            index: None,
            value,
        };
    };
    match column {
        Some(column) => Statement::SetSquare {
            at,
            name,
            row,
            column,
            value,
        },
        None => Statement::Set {
            at,
            name,
            index: Some(row),
            value,
        },
    }
}

/// Reads a push of a row, from after its first word.
#[tactic(auto, using(crate::proofs::Fit::fits_first, layer_ast::proofs::StatementViews::push_tree))]
#[cycle(statement)]
fn push(
    alloc: Global,
    room: u32,
    first: Lexed,
    tokens: &[Lexed],
) -> Result<(Statement, &[Lexed]), Fault>
    requires { first.token ≡ Token.Sign Sign.Push }
    ensures read { Parses print.statement statement_tree a_statement room (first ∷ tokens.now) result }
    ensures shorter { IfOk result (λ r. length r.1.now ≤ length tokens.now) }
{
    let (queue, rest) = read!(queue(alloc, room, tokens));
    let (items, rest) = read!(arguments_in_parentheses(alloc, room, rest), queue);
    let (otherwise, rest) = read!(else_block(alloc, room, rest), queue, items);
    let at = first.at;
    Ok((
        Statement::Push {
            at,
            queue,
            items,
            otherwise,
        },
        rest,
    ))
}

/// Reads a take of a row, from after its first word.
#[tactic(auto, using(crate::proofs::Fit::fits_first, layer_ast::proofs::StatementViews::take_tree))]
#[cycle(statement)]
fn take(
    alloc: Global,
    room: u32,
    first: Lexed,
    tokens: &[Lexed],
) -> Result<(Statement, &[Lexed]), Fault>
    requires { first.token ≡ Token.Sign Sign.Take }
    ensures read { Parses print.statement statement_tree a_statement room (first ∷ tokens.now) result }
    ensures shorter { IfOk result (λ r. length r.1.now ≤ length tokens.now) }
{
    let (queue, rest) = read!(queue(alloc, room, tokens));
    let (names, rest) = read!(names_in_parentheses(alloc, room, rest), queue);
    let (block, rest) = read!(block(alloc, room, rest), queue, names);
    let (otherwise, rest) = read!(else_block(alloc, room, rest), queue, names, block);
    let at = first.at;
    Ok((
        Statement::Take {
            at,
            queue,
            names,
            block,
            otherwise,
        },
        rest,
    ))
}

/// Reads the other way of a push or a take.
#[cycle(statement)]
fn else_block(alloc: Global, room: u32, tokens: &[Lexed]) -> Result<(Block, &[Lexed]), Fault>
    ensures { ParsesAll block_after_else block_tree (one Else ∷ a_block) room tokens.now result }
{
    let rest = sign(Sign::Else, tokens)?;
    block(alloc, room, rest)
}

/// Reads a condition from after its first word.
#[tactic(auto, using(crate::proofs::Fit::fits_first))]
#[cycle(statement)]
fn condition(
    alloc: Global,
    room: u32,
    first: Lexed,
    tokens: &[Lexed],
) -> Result<(Statement, &[Lexed]), Fault>
    requires { first.token ≡ Token.Sign Sign.If }
    ensures read { Parses print.statement statement_tree a_statement room (first ∷ tokens.now) result }
    ensures shorter { IfOk result (λ r. length r.1.now ≤ length tokens.now) }
{
    let (likely, rest) = likely(tokens);
    let (condition, rest) = read!(expression(alloc, room, rest));
    let (block, rest) = read!(block(alloc, room, rest), condition);
    let (otherwise, rest) = read!(otherwise(alloc, room, rest), condition, block);
    Ok((
        decision(first.at, likely, condition, block, otherwise),
        rest,
    ))
}

/// Reads which way a condition is predicted to go.
#[tactic(auto, unfolding(layer_ast::specs::Spells::Fits))]
fn likely(tokens: &[Lexed]) -> (Likely, &[Lexed])
    ensures { ReadsFlat print.likely (a_likely ∷ []) (λ room. room) tokens.now result.0 result.1.now }
{
    let Some((first, rest)) = tokens.split_first() else {
        return (Likely::First, tokens);
    };
    match first.token {
        Token::Sign(Sign::Rare) => (Likely::Else, rest),
        Token::Sign(Sign::Two) => (Likely::Two, rest),
        _ => (Likely::First, tokens),
    }
}

/// Reads the other way of a condition, where there is one.
#[cycle(statement)]
fn otherwise(alloc: Global, room: u32, tokens: &[Lexed]) -> Result<(Option<Block>, &[Lexed]), Fault>
    ensures { Parses print_otherwise (option_map block_tree) an_otherwise room tokens.now result }
{
    let Some(rest) = past(Sign::Else, tokens) else {
        return Ok((None, tokens));
    };
    let (block, rest) = block(alloc, room, rest)?;
    Ok((Some(block), rest))
}

/// A condition without or with another way.
#[tactic(auto, using(layer_ast::proofs::StatementViews::when_tree, layer_ast::proofs::StatementViews::choose_tree))]
fn decision(
    at: At,
    likely: Likely,
    condition: Expression,
    block: Block,
    otherwise: Option<Block>,
) -> Statement
    ensures { DecisionPrints at likely condition block otherwise result }
{
    match otherwise {
        Some(otherwise) => Statement::Choose {
            at,
            likely,
            condition,
            block,
            otherwise,
        },
        None => Statement::When {
            at,
            likely,
            condition,
            block,
        },
    }
}

/// Reads a loop from after its first word.
#[tactic(auto, using(crate::proofs::Fit::fits_first, layer_ast::proofs::StatementViews::each_tree))]
#[cycle(statement)]
fn each(
    alloc: Global,
    room: u32,
    first: Lexed,
    tokens: &[Lexed],
) -> Result<(Statement, &[Lexed]), Fault>
    requires { first.token ≡ Token.Sign Sign.Each }
    ensures read { Parses print.statement statement_tree a_statement room (first ∷ tokens.now) result }
    ensures shorter { IfOk result (λ r. length r.1.now ≤ length tokens.now) }
{
    let (name, rest) = read!(name(tokens));
    let rest = read!(sign(Sign::Below, rest));
    let (below, rest) = read!(expression(alloc, room, rest));
    let rest = read!(sign(Sign::Max, rest), below);
    let (most, rest) = read!(size(rest), below);
    let (block, rest) = read!(block(alloc, room, rest), below);
    let at = first.at;
    Ok((
        Statement::Each {
            at,
            name,
            below,
            most,
            block,
        },
        rest,
    ))
}

/// Reads an emission from after its first word.
#[tactic(auto, using(crate::proofs::Fit::fits_first, layer_ast::proofs::StatementViews::emit_tree))]
fn emission(
    alloc: Global,
    room: u32,
    direction: Dir,
    first: Lexed,
    tokens: &[Lexed],
) -> Result<(Statement, &[Lexed]), Fault>
    requires { first.token ≡ Token.Sign (direction_sign direction) }
    ensures read { Parses print.statement statement_tree a_statement room (first ∷ tokens.now) result }
    ensures shorter { IfOk result (λ r. length r.1.now ≤ length tokens.now) }
{
    let (kind, rest) = read!(kind(tokens));
    let (arguments, rest) = read!(arguments_in_parentheses(alloc, room, rest));
    let (pushed, rest) = read!(pushed(alloc, room, rest), arguments);
    let rest = read!(sign(Sign::Semicolon, rest), arguments, pushed);
    let at = first.at;
    Ok((
        Statement::Emit {
            at,
            direction,
            kind,
            arguments,
            pushed,
        },
        rest,
    ))
}

/// Reads the header that an emission puts on, where it does.
fn pushed(alloc: Global, room: u32, tokens: &[Lexed]) -> Result<(Option<Pushed>, &[Lexed]), Fault>
    ensures { Parses print.pushed (option_map pushed_tree) a_pushed room tokens.now result }
{
    let Some(rest) = past(Sign::With, tokens) else {
        return Ok((None, tokens));
    };
    let (name, rest) = read!(name(rest));
    let (fields, rest) = some_arguments_in_parentheses(alloc, room, rest)?;
    Ok((Some(Pushed { name, fields }), rest))
}
