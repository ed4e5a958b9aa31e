//! The uses of names in expressions, messages and arguments.

ghost use Rattle.std.specs.Prelude.{◌≡◌, [], Some, flat_map, option_map, map};
ghost use Rattle.std.specs.Option.{option_map_or};
ghost use Rattle.std.specs.List.{list_any};
ghost use Rattle.layer_ast.specs.View.{argument_tree, arguments_tree, built_tree, expression_tree, message_tree};
ghost use Rattle.layer_ast.specs.View.{queue_tree, pushed_tree, size_tree, statement_tree};
ghost use Rattle.fault_mean.specs.Forms.{row_of};
ghost use Rattle.fault_mean.specs.NameFaults.{same_word, use_faults, uses_faults};
ghost use Rattle.fault_mean.specs.Uses as used;
ghost use Rattle.fault_mean.specs.Uses.{of_name, of_label};
ghost use Rattle.file_names.specs.Found.{Finds};
ghost use Rattle.file_scope.specs.Scope.{scope_of};

use crate::found::{Cause, Found, is_past, note_unless};
use crate::scope::Scope;
use file_scope::has_item;
use layer_ast::{
    Argument, Arguments, Built, Expression, MessageExpression, Name, Pushed, Queue, Size, Statement,
};

/// Judges the use of a name, which must be visible.
pub fn name(found: &mut Found, scope: &Scope, name: &Name)
    ensures { Finds found.old (use_faults (scope_of scope.now) (of_name name.now)) found.new }
{
    note_unless(found, scope.is_visible(&name.word), Cause::Unknown, name.at);
}

/// Whether the rows of a queue have an item of this name.
fn is_label(scope: &Scope, queue: &Name, label: &Name) -> bool
    ensures { result ≡ list_any (λ i. same_word i.name label.now) (row_of (scope_of scope.now).layer queue.now.word) }
{
    match scope.declaration(&queue.word) {
        None => false,
        Some(declaration) => has_item(declaration, label),
    }
}

/// Judges the use of a label, which must be that of an item of its queue. It isn't looked for where a fault that was
/// found comes before it; elsewhere a row has few items.
#[tactic(auto, using(file_scope::proofs::Again::unless_past))]
fn label(found: &mut Found, scope: &Scope, queue: &Name, label: &Name)
    ensures { Finds found.old (use_faults (scope_of scope.now) (of_label queue.now label.now)) found.new }
{
    if !is_past(found, Cause::Unknown, label.at) {
        let is_there = is_label(scope, queue, label);
        note_unless(found, is_there, Cause::Unknown, label.at);
    }
}

/// Judges the uses in an expression.
#[cycle(uses)]
#[tactic(auto, using(crate::proofs::Rules::three_found))]
pub fn expression(found: &mut Found, scope: &Scope, e: &Expression)
    ensures { Finds found.old (uses_faults (scope_of scope.now) (used.uses (expression_tree e.now))) found.new }
{
    match e {
        Expression::Number { .. }
        | Expression::Me { .. }
        | Expression::Members { .. }
        | Expression::Ltime { .. } => {}
        Expression::Named { name: used, index } => {
            name(found, scope, used);
            match index {
                None => {}
                Some(index) => expression(found, scope, index),
            }
        }
        Expression::Square {
            name: used,
            row,
            column,
        } => {
            name(found, scope, used);
            expression(found, scope, row);
            expression(found, scope, column);
        }
        Expression::Rows { queue: held, .. } => queue(found, scope, held),
        Expression::Item {
            queue: held,
            row,
            label: item,
            ..
        } => {
            queue(found, scope, held);
            expression(found, scope, row);
            label(found, scope, &held.name, item);
        }
        Expression::Size { message: whole, .. } => message(found, scope, whole),
        Expression::Binary { left, right, .. } => {
            expression(found, scope, left);
            expression(found, scope, right);
        }
        Expression::Apply { operand, .. } => expression(found, scope, operand),
        Expression::Pick {
            condition,
            first,
            second,
            ..
        } => {
            expression(found, scope, condition);
            expression(found, scope, first);
            expression(found, scope, second);
        }
    }
}

/// Judges the uses in the mention of a queue.
#[cycle(uses)]
#[tactic(auto, using(crate::proofs::Rules::three_found))]
pub fn queue(found: &mut Found, scope: &Scope, q: &Queue)
    ensures { Finds found.old (uses_faults (scope_of scope.now) (used.queue_uses (queue_tree q.now))) found.new }
{
    name(found, scope, &q.name);
    match &q.index {
        None => {}
        Some(index) => expression(found, scope, index),
    }
}

/// Judges the uses in a message.
#[cycle(uses)]
#[tactic(auto, using(crate::proofs::Rules::three_found))]
pub fn message(found: &mut Found, scope: &Scope, m: &MessageExpression)
    ensures { Finds found.old (uses_faults (scope_of scope.now) (used.message_uses (message_tree m.now))) found.new }
{
    match m {
        MessageExpression::Bare(used) => name(found, scope, used),
        MessageExpression::Built(b) => built(found, scope, b),
    }
}

/// Judges the uses in a message that is no bare name.
#[cycle(uses)]
#[tactic(auto, using(crate::proofs::Rules::three_found))]
pub fn built(found: &mut Found, scope: &Scope, b: &Built)
    ensures { Finds found.old (uses_faults (scope_of scope.now) (used.built_uses (built_tree b.now))) found.new }
{
    match b {
        Built::Nothing { .. } => {}
        Built::Held {
            queue: held,
            row,
            ..
        } => {
            queue(found, scope, held);
            expression(found, scope, row);
        }
        Built::Cut {
            message: whole,
            from,
            length,
            ..
        } => {
            message(found, scope, whole);
            expression(found, scope, from);
            expression(found, scope, length);
        }
        Built::Tail {
            message: whole,
            from,
            ..
        } => {
            message(found, scope, whole);
            expression(found, scope, from);
        }
        Built::Join { first, second, .. } => {
            message(found, scope, first);
            message(found, scope, second);
        }
    }
}

/// Judges the uses in an argument.
fn argument(found: &mut Found, scope: &Scope, a: &Argument)
    ensures { Finds found.old (uses_faults (scope_of scope.now) (used.argument_uses (argument_tree a.now))) found.new }
{
    match a {
        Argument::Value(e) => expression(found, scope, e),
        Argument::Content(b) => built(found, scope, b),
    }
}

/// Judges the uses in arguments.
#[tactic(auto, using(file_scope::proofs::Finds::finds_none, file_scope::proofs::Finds::nested_more))]
fn each_argument(found: &mut Found, scope: &Scope, all: &[Argument])
    ensures { Finds found.old
        (uses_faults (scope_of scope.now) (flat_map used.argument_uses (map argument_tree all.now))) found.new }
{
    for a in all {
        argument(found, scope, a);
    }
}

/// Judges the uses in a list of arguments.
#[tactic(auto, using(file_scope::proofs::Finds::finds_row))]
fn arguments(found: &mut Found, scope: &Scope, all: &Arguments)
    ensures { Finds found.old (uses_faults (scope_of scope.now) (used.arguments_uses (Some (arguments_tree all.now))))
        found.new }
{
    argument(found, scope, &all.first);
    each_argument(found, scope, &all.rest);
}

/// Judges the uses in the header that an emission puts on.
#[tactic(auto, using(file_scope::proofs::Finds::finds_none, file_scope::proofs::Finds::finds_both))]
fn pushed(found: &mut Found, scope: &Scope, p: &Pushed)
    ensures { Finds found.old (uses_faults (scope_of scope.now) (used.pushed_uses (pushed_tree p.now))) found.new }
{
    name(found, scope, &p.name);
    match &p.fields {
        None => {}
        Some(fields) => arguments(found, scope, fields),
    }
}

/// Judges the uses in a size.
#[tactic(auto, using(file_scope::proofs::Finds::finds_none, file_scope::proofs::Finds::finds_both))]
pub fn size(found: &mut Found, scope: &Scope, s: &Size)
    ensures { Finds found.old (uses_faults (scope_of scope.now) (used.size_uses (size_tree s.now))) found.new }
{
    match s {
        Size::Number { .. } => {}
        Size::Named { name: used } => name(found, scope, used),
    }
}

/// Judges the uses in an expression that may be missing.
#[tactic(auto, using(file_scope::proofs::Finds::finds_none))]
pub fn optional(found: &mut Found, scope: &Scope, e: &Option<Expression>)
    ensures { Finds found.old
        (uses_faults (scope_of scope.now) (option_map_or used.uses (option_map expression_tree e.now) [])) found.new }
{
    match e {
        None => {}
        Some(e) => expression(found, scope, e),
    }
}

/// Judges the uses in a statement, without those in its blocks.
#[tactic(auto, using(crate::proofs::Rules::row_found))]
pub fn statement(found: &mut Found, scope: &Scope, s: &Statement)
    ensures { Finds found.old (uses_faults (scope_of scope.now) (used.statement_uses (statement_tree s.now)))
        found.new }
{
    match s {
        Statement::Let { value, .. } => expression(found, scope, value),
        Statement::Set {
            name: cell,
            index,
            value,
            ..
        } => {
            name(found, scope, cell);
            optional(found, scope, index);
            expression(found, scope, value);
        }
        Statement::SetSquare {
            name: cell,
            row,
            column,
            value,
            ..
        } => {
            name(found, scope, cell);
            expression(found, scope, row);
            expression(found, scope, column);
            expression(found, scope, value);
        }
        Statement::Push {
            queue: held,
            items,
            ..
        } => {
            queue(found, scope, held);
            arguments(found, scope, items);
        }
        Statement::Take { queue: held, .. } => queue(found, scope, held),
        Statement::When { condition, .. } | Statement::Choose { condition, .. } => {
            expression(found, scope, condition)
        }
        Statement::Each { below, most, .. } => {
            expression(found, scope, below);
            size(found, scope, most);
        }
        Statement::Emit {
            arguments: all,
            pushed: header,
            ..
        } => {
            arguments(found, scope, all);
            match header {
                None => {}
                Some(header) => pushed(found, scope, header),
            }
        }
    }
}
