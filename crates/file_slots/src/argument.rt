//! Lists of arguments, and of names, whose last may stand for a message.

ghost use Rattle.std.specs.Prelude.{◌≡◌, ◌≤◌, ◌-◌, ◌∷◌, if◌then◌else◌, drop, length, map, take, IfOk, Some, None, true};
ghost use Rattle.std.specs.Prelude.{option_map, option_to_list};
ghost use Rattle.std.specs.List.{last_or};
ghost use Rattle.layer_ast.specs.View as written;
ghost use Rattle.layer_mean.specs.Event as event;
ghost use Rattle.fault_mean.specs.Uses.{arguments_in};
ghost use Rattle.file_mean.specs.Names.{numbers_among};
ghost use Rattle.file_mean.specs.Values as spec;
ghost use Rattle.typed_layer.specs.View.{expression_tree};
ghost use Rattle.file_slots.specs.Scope.{names_of};
ghost use Rattle.msg_core.specs.Headers.{most_fields};

use crate::scope::VisibleNames;
use crate::value::argument_number;
use layer_ast::{Argument, Arguments};
use layer_words::Kind;
use std::alloc::{AllocError, Global};
use typed_layer::{Expression, Numbers};

/// Whether the events of a kind carry a message.
pub fn carries(kind: Kind) -> bool
    ensures { result ≡ event.carries kind }
{
    matches!(kind, Kind::Cast | Kind::Send)
}

/// How many of `count` things stand for numbers.
pub fn numbers_of(has_message: bool, count: usize) -> usize
    ensures { result ≡ (if has_message then count - 1 else count) }
{
    if has_message {
        count.saturating_sub(1)
    } else {
        count
    }
}

/// The last of some arguments.
#[tactic(auto, using(crate::proofs::Lists::last_there))]
pub fn last(arguments: &Arguments) -> &Argument
    ensures { Some (written.argument_tree result.now) ≡
        last_or None (arguments_in (Some (written.arguments_tree arguments.now))) }
{
    match arguments.rest.last() {
        None => &arguments.first,
        Some(argument) => argument,
    }
}

/// The numbers of a first and further arguments.
#[tactic(auto, using(crate::proofs::Lists::trees_more))]
fn each_number(
    alloc: Global,
    names: &VisibleNames,
    first: &Argument,
    rest: &[Argument],
) -> Result<Vec<Expression>, AllocError>
    ensures { IfOk result
        (λ all. map expression_tree all.items ≡
        map (spec.argument_number (names_of names.now))
        (written.argument_tree first.now ∷ map written.argument_tree rest.now)) }
{
    let mut all = Vec::with_capacity(alloc, rest.len() + 1)?;
    all.push(argument_number(alloc, names, first)?)?;
    for argument in rest {
        all.push(argument_number(alloc, names, argument)?)?;
    }
    Ok(all)
}

/// The numbers of arguments that may be missing.
pub fn fields(
    alloc: Global,
    names: &VisibleNames,
    arguments: &Option<Arguments>,
) -> Result<Vec<Expression>, AllocError>
    ensures { IfOk result
        (λ all. map expression_tree all.items ≡
        map (spec.argument_number (names_of names.now))
        (arguments_in (option_map written.arguments_tree arguments.now))) }
{
    match arguments {
        None => Ok(Vec::new(alloc)),
        Some(arguments) => each_number(alloc, names, &arguments.first, &arguments.rest),
    }
}

/// The numbers of all arguments but the last.
#[tactic(auto, using(crate::proofs::Lists::front_none))]
fn front(
    alloc: Global,
    names: &VisibleNames,
    arguments: &Arguments,
) -> Result<Vec<Expression>, AllocError>
    ensures { IfOk result
        (λ all. map expression_tree all.items ≡
        map (spec.argument_number (names_of names.now))
        (numbers_among true (arguments_in (Some (written.arguments_tree arguments.now))))) }
{
    let rest = arguments.rest.as_slice();
    if rest.is_empty() {
        return Ok(Vec::new(alloc));
    }
    let inner = &rest[..rest.len() - 1];
    each_number(alloc, names, &arguments.first, inner)
}

/// The numbers of arguments, of which the last may stand for a message.
pub fn numbers(
    alloc: Global,
    names: &VisibleNames,
    has_message: bool,
    arguments: &Arguments,
) -> Result<Vec<Expression>, AllocError>
    ensures { IfOk result
        (λ all. map expression_tree all.items ≡
        map (spec.argument_number (names_of names.now))
        (numbers_among has_message (arguments_in (Some (written.arguments_tree arguments.now))))) }
{
    if has_message {
        front(alloc, names, arguments)
    } else {
        each_number(alloc, names, &arguments.first, &arguments.rest)
    }
}

/// Expressions of which there are few.
pub fn few(expressions: Vec<Expression>) -> Numbers
    requires { length (map expression_tree expressions.items) ≤ most_fields }
    ensures { map expression_tree result ≡ map expression_tree expressions.items }
{
    Numbers::of(expressions)
}
