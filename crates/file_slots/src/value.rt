//! Numbers and messages, with numbers in place of names.

ghost use Rattle.std.specs.Prelude.{◌≡◌, option_map, unwrap_or, IfOk};
ghost use Rattle.layer_ast.specs.View as written;
ghost use Rattle.fault_mean.specs.Forms.{row_of};
ghost use Rattle.file_mean.specs.Names.{carried_in};
ghost use Rattle.file_mean.specs.Names as names_spec;
ghost use Rattle.file_mean.specs.Values as spec;
ghost use Rattle.typed_layer.specs.View.{carried_tree, expression_tree, message_tree};
ghost use Rattle.layer_mean.specs.Tree as tree;
ghost use Rattle.file_slots.specs.Scope.{names_of};

use crate::scope::VisibleNames;
use layer_ast as ast;
use layer_ast::{Argument, Built, Name, Queue};
use std::alloc::{AllocError, Global};
use typed_layer::{Carried, Expression, MessageExpression};

/// The number of a name: one that the handler declares, the value of a param, or a cell of one number.
fn named(names: &VisibleNames, name: &Name) -> Expression
    ensures { expression_tree result ≡ spec.named_number (names_of names.now) name.now }
{
    if let Some(slot) = names.numbers.slot(&name.word) {
        return Expression::Local(slot);
    }
    match names.place.param(&name.word) {
        Some(value) => Expression::Number(value),
        None => Expression::Scalar(names.place.cell(name)),
    }
}

/// The slot of a visible message.
fn message_slot(names: &VisibleNames, name: &Name) -> MessageExpression
    ensures { message_tree result ≡ tree.message (names_spec.message_slot (names_of names.now) name.now) }
{
    MessageExpression::Local(names.messages.slot(&name.word).unwrap_or(0))
}

/// What the rows of a queue carry; where they carry nothing, a part.
fn held_in(names: &VisibleNames, queue: &Name) -> Carried
    ensures { carried_tree result ≡
        unwrap_or (carried_in (names_of names.now).place (row_of (names_of names.now).place.layer queue.now.word))
        tree.part }
{
    names.place.carried(queue).unwrap_or(Carried::Part)
}

/// The number of an expression.
#[cycle(values)]
pub fn number(
    alloc: Global,
    names: &VisibleNames,
    e: &ast::Expression,
) -> Result<Expression, AllocError>
    ensures { IfOk result
        (λ x. expression_tree x ≡ spec.number_of (names_of names.now) (written.expression_tree e.now)) }
{
    match e {
        ast::Expression::Number { value, .. } => Ok(Expression::Number(*value)),
        ast::Expression::Me { .. } => Ok(Expression::Me),
        ast::Expression::Members { .. } => Ok(Expression::Count),
        ast::Expression::Ltime { .. } => Ok(Expression::Ltime),
        ast::Expression::Named { name, index } => match index {
            None => Ok(named(names, name)),
            Some(index) => Ok(Expression::Element {
                cell: names.place.cell(name),
                index: boxed(alloc, names, index)?,
            }),
        },
        ast::Expression::Square { name, row, column } => Ok(Expression::Square {
            cell: names.place.cell(name),
            row: boxed(alloc, names, row)?,
            column: boxed(alloc, names, column)?,
        }),
        ast::Expression::Rows { queue, .. } => Ok(Expression::Rows {
            cell: names.place.cell(&queue.name),
            index: boxed_index(alloc, names, queue)?,
        }),
        ast::Expression::Item {
            queue,
            row,
            label,
            ..
        } => Ok(Expression::Item {
            cell: names.place.cell(&queue.name),
            index: boxed_index(alloc, names, queue)?,
            row: boxed(alloc, names, row)?,
            number: names.place.item(&queue.name, label),
        }),
        ast::Expression::Size { message, .. } => {
            Ok(Expression::Size(boxed_message(alloc, names, message)?))
        }
        ast::Expression::Binary {
            left,
            operator,
            right,
            ..
        } => Ok(Expression::Binary {
            operator: *operator,
            left: boxed(alloc, names, left)?,
            right: boxed(alloc, names, right)?,
        }),
        ast::Expression::Apply {
            function,
            operand,
            ..
        } => Ok(Expression::Apply {
            function: *function,
            operand: boxed(alloc, names, operand)?,
        }),
        ast::Expression::Pick {
            condition,
            first,
            second,
            ..
        } => Ok(Expression::Pick {
            condition: boxed(alloc, names, condition)?,
            first: boxed(alloc, names, first)?,
            second: boxed(alloc, names, second)?,
        }),
    }
}

/// The number of an expression, in a box.
#[cycle(values)]
fn boxed(
    alloc: Global,
    names: &VisibleNames,
    e: &ast::Expression,
) -> Result<Box<Expression>, AllocError>
    ensures { IfOk result
        (λ x. expression_tree x.value ≡ spec.number_of (names_of names.now) (written.expression_tree e.now)) }
{
    let number = number(alloc, names, e)?;
    Ok(Box::new(alloc, number)?)
}

/// The index of a queue among those of its cell: a queue that is alone has 0.
#[cycle(values)]
pub fn queue_index(
    alloc: Global,
    names: &VisibleNames,
    queue: &Queue,
) -> Result<Expression, AllocError>
    ensures { IfOk result
        (λ x. expression_tree x ≡ spec.queue_index (names_of names.now) (written.queue_tree queue.now)) }
{
    match &queue.index {
        None => Ok(Expression::Number(0)),
        Some(index) => number(alloc, names, index),
    }
}

/// The index of a queue, in a box.
#[cycle(values)]
fn boxed_index(
    alloc: Global,
    names: &VisibleNames,
    queue: &Queue,
) -> Result<Box<Expression>, AllocError>
    ensures { IfOk result
        (λ x. expression_tree x.value ≡ spec.queue_index (names_of names.now) (written.queue_tree queue.now)) }
{
    let index = queue_index(alloc, names, queue)?;
    Ok(Box::new(alloc, index)?)
}

/// The message of a message expression.
#[cycle(values)]
fn message(
    alloc: Global,
    names: &VisibleNames,
    m: &ast::MessageExpression,
) -> Result<MessageExpression, AllocError>
    ensures { IfOk result (λ x. message_tree x ≡ spec.message_of (names_of names.now) (written.message_tree m.now)) }
{
    match m {
        ast::MessageExpression::Bare(name) => Ok(message_slot(names, name)),
        ast::MessageExpression::Built(b) => built(alloc, names, b),
    }
}

/// The message of a message expression, in a box.
#[cycle(values)]
fn boxed_message(
    alloc: Global,
    names: &VisibleNames,
    m: &ast::MessageExpression,
) -> Result<Box<MessageExpression>, AllocError>
    ensures { IfOk result
        (λ x. message_tree x.value ≡ spec.message_of (names_of names.now) (written.message_tree m.now)) }
{
    let message = message(alloc, names, m)?;
    Ok(Box::new(alloc, message)?)
}

/// A message that is no bare name.
#[cycle(values)]
pub fn built(
    alloc: Global,
    names: &VisibleNames,
    b: &Built,
) -> Result<MessageExpression, AllocError>
    ensures { IfOk result (λ x. message_tree x ≡ spec.built_of (names_of names.now) (written.built_tree b.now)) }
{
    match b {
        Built::Nothing { .. } => Ok(MessageExpression::Nothing),
        Built::Held { queue, row, .. } => Ok(MessageExpression::Held {
            cell: names.place.cell(&queue.name),
            index: boxed_index(alloc, names, queue)?,
            row: boxed(alloc, names, row)?,
            carried: held_in(names, &queue.name),
        }),
        Built::Cut {
            message,
            from,
            length,
            ..
        } => Ok(MessageExpression::Cut {
            message: boxed_message(alloc, names, message)?,
            from: boxed(alloc, names, from)?,
            length: boxed(alloc, names, length)?,
        }),
        Built::Tail { message, from, .. } => Ok(MessageExpression::Tail {
            message: boxed_message(alloc, names, message)?,
            from: boxed(alloc, names, from)?,
        }),
        Built::Join { first, second, .. } => Ok(MessageExpression::Join {
            first: boxed_message(alloc, names, first)?,
            second: boxed_message(alloc, names, second)?,
        }),
    }
}

/// An argument as a number.
pub fn argument_number(
    alloc: Global,
    names: &VisibleNames,
    argument: &Argument,
) -> Result<Expression, AllocError>
    ensures { IfOk result
        (λ x. expression_tree x ≡ spec.argument_number (names_of names.now) (written.argument_tree argument.now)) }
{
    match argument {
        Argument::Value(e) => number(alloc, names, e),
        Argument::Content(_) => Ok(Expression::Number(0)),
    }
}

/// An argument as a message: a bare name stands for one, too.
pub fn argument_message(
    alloc: Global,
    names: &VisibleNames,
    argument: &Argument,
) -> Result<MessageExpression, AllocError>
    ensures { IfOk result
        (λ x. message_tree x ≡ spec.argument_message (names_of names.now) (written.argument_tree argument.now)) }
{
    match argument {
        Argument::Value(ast::Expression::Named { name, index: None }) => {
            Ok(message_slot(names, name))
        }
        Argument::Value(_) => Ok(MessageExpression::Nothing),
        Argument::Content(b) => built(alloc, names, b),
    }
}
