//! Handlers, with numbers in place of names.

ghost use Rattle.std.specs.Prelude.{◌≡◌, ◌≤◌, ◌+◌, ◌-◌, ◌++◌, All, length, map, option_map, option_to_list, vec_len};
ghost use Rattle.std.specs.Prelude.{IfOk, Some};
ghost use Rattle.std.specs.List.{AllByRecursion};
ghost use Rattle.layer_ast.specs.View as written;
ghost use Rattle.layer_mean.specs.Event as event;
ghost use Rattle.fault_mean.specs.Declared.{names_in};
ghost use Rattle.fault_mean.specs.Scope as scope;
ghost use Rattle.file_mean.specs.Layers as spec;
ghost use Rattle.file_mean.specs.Names.{message_among, numbers_among, own_names, with_messages, with_numbers};
ghost use Rattle.file_mean.specs.Statements.{after_all, statements_of};
ghost use Rattle.typed_layer.specs.Table.{IsTagged};
ghost use Rattle.typed_layer.specs.View.{block_tree, expected_tree, handler_tree};
ghost use Rattle.file_laws.specs.Bounds.{HoldsBlock, HoldsHandler, IsByte};
ghost use Rattle.file_slots.specs.Place.{placed_of};
ghost use Rattle.file_slots.specs.Scope.{names_of};
ghost use Rattle.fault_mean.specs.Limits.{most_names};
ghost use Rattle.msg_core.specs.Headers.{most_declared};

use crate::made::made;
use crate::statement::block;
use file_scope::{listed, written};
use file_slots::{PlacedLayer, VisibleNames, carries, number, numbers_of};
use layer_ast as ast;
use layer_ast::{Name, Popped};
use std::alloc::{AllocError, Global};
use typed_layer::{Expected, Handler, StatementBlock};

/// The header that a handler takes off, by its tag; without one it is 0.
fn popped_tag(place: &PlacedLayer, popped: &Option<Popped>) -> u8
    ensures is { result ≡ spec.popped_tag (placed_of place.now) (option_map written.popped_tree popped.now) }
    ensures few { result ≤ most_declared }
{
    match popped {
        None => 0,
        Some(popped) => place.tag(&popped.name),
    }
}

/// The names of the fields of the header that a handler takes off.
fn popped_names(alloc: Global, popped: &Option<Popped>) -> Result<Vec<Name>, AllocError>
    ensures { IfOk result (λ all. all.items ≡ scope.popped_names (option_map written.popped_tree popped.now)) }
{
    match popped {
        None => Ok(Vec::new(alloc)),
        Some(popped) => listed(alloc, &popped.fields),
    }
}

/// Names for numbers, and after them those of the fields of the header that is taken off.
fn with_fields(
    alloc: Global,
    numbers: &[Name],
    popped: &Option<Popped>,
) -> Result<Vec<Name>, AllocError>
    ensures { IfOk result
        (λ all. all.items ≡ numbers.now ++ scope.popped_names (option_map written.popped_tree popped.now)) }
{
    let fields = popped_names(alloc, popped)?;
    let mut all = Vec::with_capacity(alloc, numbers.len())?;
    all.extend_from_slice(numbers)?;
    all.extend_from_slice(&fields)?;
    Ok(all)
}

/// The names that a handler brings, in a layer at its place.
#[tactic(auto, using(crate::proofs::Rows::numbers_are, crate::proofs::Rows::message_is))]
fn enter<'a>(
    alloc: Global,
    place: &'a PlacedLayer<'a>,
    h: &ast::Handler,
) -> Result<VisibleNames<'a>, AllocError>
    requires { length (scope.head_names (written.handler_tree h.now)) ≤ most_names }
    ensures { IfOk result
        (λ names. names_of names ≡ spec.handler_names (placed_of place.now) (written.handler_tree h.now)) }
{
    let event = written(alloc, &h.names)?;
    let count = numbers_of(carries(h.kind), event.len());
    let (numbers, message) = event.split_at(count);
    let numbers = with_fields(alloc, numbers, &h.popped)?;
    let mut names = VisibleNames::own(alloc, place);
    names.bring_numbers(&numbers)?;
    names.bring_messages(message)?;
    Ok(names)
}

/// When a handler goes as predicted.
fn expected(
    alloc: Global,
    names: &VisibleNames,
    expected: &ast::Expected,
) -> Result<Expected, AllocError>
    ensures { IfOk result
        (λ x. expected_tree x ≡ spec.expected_of (names_of names.now) (written.expected_tree expected.now)) }
{
    match expected {
        ast::Expected::Always => Ok(Expected::Always),
        ast::Expected::Common(condition) => Ok(Expected::Common(number(alloc, names, condition)?)),
        ast::Expected::Rare => Ok(Expected::Rare),
    }
}

/// What a handler's block makes: how many numbers and messages it declares, and its statements.
#[derive(Drop)]
struct Entered {
    numbers: u8,
    messages: u8,
    block: StatementBlock,
}

/// The block of a handler, before which these names are visible.
fn whole_block(
    alloc: Global,
    names: &mut VisibleNames,
    b: &ast::Block,
) -> Result<Entered, AllocError>
    requires numbers { IsByte
        ((after_all (written.block_tree b.now) (names_of names.old)).taken.numbers -
        (names_of names.old).taken.numbers) }
    requires messages { IsByte
        ((after_all (written.block_tree b.now) (names_of names.old)).taken.messages -
        (names_of names.old).taken.messages) }
    requires block { HoldsBlock (statements_of (names_of names.old) (written.block_tree b.now)) }
    ensures numbers { IfOk result (λ x. x.numbers
        ≡ (after_all (written.block_tree b.now) (names_of names.old)).taken.numbers -
        (names_of names.old).taken.numbers) }
    ensures messages { IfOk result (λ x. x.messages
        ≡ (after_all (written.block_tree b.now) (names_of names.old)).taken.messages -
        (names_of names.old).taken.messages) }
    ensures block { IfOk result
        (λ x. block_tree x.block ≡ statements_of (names_of names.old) (written.block_tree b.now)) }
{
    let numbers = names.numbers.taken();
    let messages = names.messages.taken();
    let block = block(alloc, names, b)?;
    Ok(Entered {
        numbers: names.numbers.taken().saturating_sub(numbers) as u8,
        messages: names.messages.taken().saturating_sub(messages) as u8,
        block,
    })
}

/// A handler.
#[tactic(auto, unfolding(file_mean::specs::Layers::handler_of))]
fn handler(alloc: Global, place: &PlacedLayer, h: &ast::Handler) -> Result<Handler, AllocError>
    requires { HoldsHandler (placed_of place.now) (written.handler_tree h.now) }
    ensures is { IfOk result
        (λ x. handler_tree x ≡ spec.handler_of (placed_of place.now) (written.handler_tree h.now)) }
    ensures tagged { IfOk result (λ x. IsTagged x) }
{
    let mut names = enter(alloc, place, h)?;
    let expected = made!(expected(alloc, &names, &h.expected), names);
    let entered = whole_block(alloc, &mut names, &h.block);
    drop(names);
    let entered = made!(entered, expected);
    Ok(Handler {
        direction: h.direction,
        kind: h.kind,
        tag: popped_tag(place, &h.popped),
        expected,
        numbers: entered.numbers,
        messages: entered.messages,
        block: entered.block,
    })
}

/// The handlers of a layer at its place, in order.
pub fn handlers(
    alloc: Global,
    place: &PlacedLayer,
    all: &[ast::Handler],
) -> Result<Vec<Handler>, AllocError>
    requires { AllByRecursion (HoldsHandler (placed_of place.now)) (map written.handler_tree all.now) }
    ensures is { IfOk result
        (λ made. map handler_tree made.items ≡
        map (spec.handler_of (placed_of place.now)) (map written.handler_tree all.now)) }
    ensures tagged { IfOk result (λ made. All IsTagged made.items) }
{
    let mut made = Vec::with_capacity(alloc, all.len())?;
    for h in all {
        made.push(handler(alloc, place, h)?)?;
    }
    Ok(made)
}
