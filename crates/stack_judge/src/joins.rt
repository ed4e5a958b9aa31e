//! How many joins handlers make at most, as far as 32 bits hold the number.

ghost use Rattle.std.specs.Prelude.{◌≡◌, map, option_map};
ghost use Rattle.std.specs.List.{sum_by};
ghost use Rattle.std.specs.Option.{option_map_or};
ghost use Rattle.stack_mean.specs.Emissions.{joins_in, joins_in_message, joins_in_content, joins_in_emission};
ghost use Rattle.stack_mean.specs.Emissions.{joins_in_row, joins, joins_of, joins_expected, handler_joins};
ghost use Rattle.stack_mean.specs.Acceptance.{held_at_most};
ghost use Rattle.typed_layer.specs.View.{expression_tree, message_tree, content_tree, emission_tree, row_tree};
ghost use Rattle.typed_layer.specs.View.{statement_tree, block_tree, expected_tree, handler_tree};

use typed_layer::{
    Content, Emission, Expected, Expression, Handler, MessageExpression, RowExpression, Statement,
    StatementBlock,
};

#[cycle(joins_in)]
fn of_expression(expression: &Expression) -> u32
    ensures { result ≡ held_at_most (joins_in (expression_tree expression.now)) }
{
    match expression {
        Expression::Number(_) => 0,
        Expression::Me => 0,
        Expression::Count => 0,
        Expression::Ltime => 0,
        Expression::Local(_) => 0,
        Expression::Scalar(_) => 0,
        Expression::Element { cell: _, index } => of_expression(index),
        Expression::Square {
            cell: _,
            row,
            column,
        } => { of_expression(row).saturating_add(of_expression(column)) }
        Expression::Rows { cell: _, index } => of_expression(index),
        Expression::Item {
            cell: _,
            index,
            row,
            number: _,
        } => { of_expression(index).saturating_add(of_expression(row)) }
        Expression::Size(message) => of_message(message),
        Expression::Binary {
            operator: _,
            left,
            right,
        } => { of_expression(left).saturating_add(of_expression(right)) }
        Expression::Apply {
            function: _,
            operand,
        } => of_expression(operand),
        Expression::Pick {
            condition,
            first,
            second,
        } => of_expression(condition)
            .saturating_add(of_expression(first))
            .saturating_add(of_expression(second)),
    }
}

#[cycle(joins_in)]
fn of_message(message: &MessageExpression) -> u32
    ensures { result ≡ held_at_most (joins_in_message (message_tree message.now)) }
{
    match message {
        MessageExpression::Local(_) => 0,
        MessageExpression::Nothing => 0,
        MessageExpression::Held {
            cell: _,
            index,
            row,
            carried: _,
        } => { of_expression(index).saturating_add(of_expression(row)) }
        MessageExpression::Cut {
            message,
            from,
            length,
        } => of_message(message)
            .saturating_add(of_expression(from))
            .saturating_add(of_expression(length)),
        MessageExpression::Tail { message, from } => {
            of_message(message).saturating_add(of_expression(from))
        }
        MessageExpression::Join { first, second } => of_message(first)
            .saturating_add(of_message(second))
            .saturating_add(1),
    }
}

/// The joins of expressions together.
fn of_numbers(expressions: &[Expression]) -> u32
    ensures { result ≡ held_at_most (sum_by joins_in (map expression_tree expressions.now)) }
{
    let mut sum: u32 = 0;
    for expression in expressions {
        sum = sum.saturating_add(of_expression(expression));
    }
    sum
}

fn of_content(content: &Content) -> u32
    ensures { result ≡ held_at_most (joins_in_content (content_tree content.now)) }
{
    of_message(&content.message).saturating_add(of_numbers(content.fields.slice()))
}

fn of_emission(emission: &Emission) -> u32
    ensures { result ≡ held_at_most (joins_in_emission (emission_tree emission.now)) }
{
    let numbers = of_numbers(emission.numbers.slice());
    match &emission.content {
        None => numbers,
        Some(content) => numbers.saturating_add(of_content(content)),
    }
}

fn of_row(row: &RowExpression) -> u32
    ensures { result ≡ held_at_most (joins_in_row (row_tree row.now)) }
{
    let numbers = of_numbers(row.numbers.slice());
    match &row.message {
        None => numbers,
        Some(message) => numbers.saturating_add(of_message(message)),
    }
}

#[cycle(joins_of)]
fn of_statement(statement: &Statement) -> u32
    ensures { result ≡ held_at_most (joins (statement_tree statement.now)) }
{
    match statement {
        Statement::Bind { slot: _, value } => of_expression(value),
        Statement::Set { cell: _, value } => of_expression(value),
        Statement::SetElement {
            cell: _,
            index,
            value,
        } => { of_expression(index).saturating_add(of_expression(value)) }
        Statement::SetSquare {
            cell: _,
            row,
            column,
            value,
        } => of_expression(row)
            .saturating_add(of_expression(column))
            .saturating_add(of_expression(value)),
        Statement::Push {
            cell: _,
            index,
            capacity: _,
            row,
            otherwise,
        } => of_expression(index)
            .saturating_add(of_row(row))
            .saturating_add(of_block(otherwise)),
        Statement::Take {
            cell: _,
            index,
            taken: _,
            block,
            otherwise,
        } => of_expression(index)
            .saturating_add(of_block(block))
            .saturating_add(of_block(otherwise)),
        Statement::Branch {
            likely: _,
            condition,
            block,
            otherwise,
        } => of_expression(condition)
            .saturating_add(of_block(block))
            .saturating_add(of_block(otherwise)),
        Statement::Each {
            slot: _,
            below,
            most,
            block,
        } => {
            of_expression(below).saturating_add(u32::from(*most).saturating_mul(of_block(block)))
        }
        Statement::Emit(emission) => of_emission(emission),
    }
}

#[cycle(joins_of)]
fn of_block(block: &StatementBlock) -> u32
    ensures { result ≡ held_at_most (joins_of (block_tree block.now)) }
{
    let mut sum: u32 = 0;
    for statement in block.statements.as_slice() {
        sum = sum.saturating_add(of_statement(statement));
    }
    sum
}

fn of_expected(expected: &Expected) -> u32
    ensures { result ≡ held_at_most (joins_expected (expected_tree expected.now)) }
{
    match expected {
        Expected::Always => 0,
        Expected::Common(condition) => of_expression(condition),
        Expected::Rare => 0,
    }
}

/// The joins of a handler.
pub fn of_handler(handler: &Handler) -> u32
    ensures { result ≡ held_at_most (handler_joins (handler_tree handler.now)) }
{
    of_expected(&handler.expected).saturating_add(of_block(&handler.block))
}
