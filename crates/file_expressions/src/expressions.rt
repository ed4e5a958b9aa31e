//! The types of expressions and messages.

ghost use Rattle.std.specs.Prelude.{◌≡◌};
ghost use Rattle.layer_ast.specs.View.{built_tree, expression_tree, message_tree, queue_tree};
ghost use Rattle.fault_mean.specs.ExpressionFaults as spec;
ghost use Rattle.file_expressions.specs.Found.{Finds};
ghost use Rattle.file_scope.specs.Scope.{scope_of};

use crate::found::{Cause, note_unless};
use crate::items::{held_sort, reads_number};
use crate::places::message_at;
use crate::sorts::{message_sort, name_sort};
use crate::wanted::{NUMBER, Wanted, may_be, must_be};
use file_scope::{Found, Scope, declares_numbers, declares_queue, declares_queues};
use layer_ast::{Built, Expression, MessageExpression, Name, Queue};
use layer_words::{At, Shape, Sort};

/// Where a message of the layers above is wanted.
const MSG: Wanted = Wanted::One(Sort::Msg);

/// Where a part is wanted.
const PART: Wanted = Wanted::One(Sort::Part);

/// An expression, which is to be a number.
#[cycle(types)]
#[tactic(auto, using(crate::proofs::Rules::parts_found))]
pub fn expression(found: &mut Found, scope: &Scope, e: &Expression)
    ensures { Finds found.old (spec.number_faults (scope_of scope.now) (expression_tree e.now)) found.new }
{
    match e {
        Expression::Number { .. }
        | Expression::Me { .. }
        | Expression::Members { .. }
        | Expression::Ltime { .. } => {}
        Expression::Named { name, index } => match index {
            None => {
                let sort = name_sort(scope, &name.word);
                note_unless(found, must_be(NUMBER, sort), Cause::Kind, name.at);
            }
            Some(index) => {
                let holds = declares_numbers(scope, Shape::Array, &name.word);
                note_unless(found, holds, Cause::Kind, name.at);
                expression(found, scope, index);
            }
        },
        Expression::Square { name, row, column } => {
            let holds = declares_numbers(scope, Shape::Square, &name.word);
            note_unless(found, holds, Cause::Kind, name.at);
            expression(found, scope, row);
            expression(found, scope, column);
        }
        Expression::Rows { at, queue: held } => queue(found, scope, *at, held),
        Expression::Item {
            at,
            queue: held,
            row,
            label,
        } => {
            queue(found, scope, *at, held);
            let holds = reads_number(scope, held, label);
            note_unless(found, holds, Cause::Kind, *at);
            expression(found, scope, row);
        }
        Expression::Size { message: whole, .. } => message(found, scope, whole),
        Expression::Binary { left, right, .. } => {
            expression(found, scope, left);
            expression(found, scope, right);
        }
        Expression::Apply { operand, .. } => expression(found, scope, operand),
        Expression::Pick {
            condition,
            first,
            second,
            ..
        } => {
            expression(found, scope, condition);
            expression(found, scope, first);
            expression(found, scope, second);
        }
    }
}

/// The mention of a queue after the word at this place.
#[cycle(types)]
#[tactic(auto, using(file_scope::proofs::Finds::finds_both))]
pub fn queue(found: &mut Found, scope: &Scope, at: At, q: &Queue)
    ensures { Finds found.old (spec.queue_faults (scope_of scope.now) at (queue_tree q.now)) found.new }
{
    match &q.index {
        None => {
            let holds = declares_queue(scope, &q.name.word);
            note_unless(found, holds, Cause::Kind, at);
        }
        Some(index) => {
            let holds = declares_queues(scope, &q.name.word);
            note_unless(found, holds, Cause::Kind, at);
            expression(found, scope, index);
        }
    }
}

/// What is to be a message.
#[cycle(types)]
pub fn message(found: &mut Found, scope: &Scope, m: &MessageExpression)
    ensures { Finds found.old (spec.message_faults (scope_of scope.now) (message_tree m.now)) found.new }
{
    match m {
        MessageExpression::Bare(name) => {
            let sort = name_sort(scope, &name.word);
            note_unless(found, must_be(Wanted::Message, sort), Cause::Kind, name.at);
        }
        MessageExpression::Built(b) => built(found, scope, b),
    }
}

/// A message that is no bare name.
#[cycle(types)]
#[tactic(auto, using(crate::proofs::Rules::parts_found))]
pub fn built(found: &mut Found, scope: &Scope, b: &Built)
    ensures { Finds found.old (spec.built_faults (scope_of scope.now) (built_tree b.now)) found.new }
{
    match b {
        Built::Nothing { .. } => {}
        Built::Held {
            at,
            queue: held,
            row,
        } => {
            queue(found, scope, *at, held);
            let holds = held_sort(scope, held).is_some();
            note_unless(found, holds, Cause::Kind, *at);
            expression(found, scope, row);
        }
        Built::Cut {
            message: whole,
            from,
            length,
            ..
        } => {
            message(found, scope, whole);
            expression(found, scope, from);
            expression(found, scope, length);
        }
        Built::Tail {
            at,
            message: whole,
            from,
        } => {
            let is_part = must_be(PART, message_sort(scope, whole));
            note_unless(found, !is_part, Cause::Kind, *at);
            message(found, scope, whole);
            expression(found, scope, from);
        }
        Built::Join { first, second, .. } => {
            let holds = may_be(PART, message_sort(scope, first));
            note_unless(found, holds, Cause::Kind, message_at(first));
            let holds = may_be(MSG, message_sort(scope, second));
            note_unless(found, holds, Cause::Kind, message_at(second));
            message(found, scope, first);
            message(found, scope, second);
        }
    }
}
