//! The types of handlers.

ghost use Rattle.std.specs.Prelude.{◌≡◌, ◌++◌, [], ◌==◌, flat_map, length, map, option_map, OnOk, IfOk, Some};
ghost use Rattle.std.specs.Option.{option_map_or};
ghost use Rattle.layer_ast.specs.View.{expected_tree, handler_tree, layer_tree, popped_tree};
ghost use Rattle.fault_mean.specs.Declared.{names_in};
ghost use Rattle.fault_mean.specs.Earliest.{unless};
ghost use Rattle.fault_mean.specs.Faults as fault;
ghost use Rattle.fault_mean.specs.Kinds.{arguments_of};
ghost use Rattle.fault_mean.specs.Scope as scopes;
ghost use Rattle.fault_mean.specs.TypeFaults as spec;
ghost use Rattle.file_expressions.specs.Found.{Finds};
ghost use Rattle.file_types.specs.Blocks.{standing_faults};
ghost use Rattle.file_scope.specs.Scope.{scope_of};
ghost use Rattle.file_scope.specs.Words.{own_words};

use crate::block::block;
use crate::count::{Count, count_names, is_same_count};
use crate::header::{With, header};
use crate::kinds::{argument_count, carries, pushes};
use file_expressions::{Cause, expression, note_unless};
use file_scope::{Found, Scope, Words, head_locals};
use layer_ast::{Expected, Handler, Layer};
use std::alloc::{AllocError, Global};

/// The scope of the condition and the block of a handler.
#[tactic(auto, using(crate::proofs::Handlers::head_is))]
fn head<'a>(
    alloc: Global,
    layer: &'a Layer,
    own: &'a Words,
    handler: &Handler,
) -> Result<Scope<'a>, AllocError>
    requires { own.now ≡ own_words (layer_tree layer.now) }
    ensures { IfOk result
        (λ scope. scope_of scope ≡ scopes.head_scope (layer_tree layer.now) (handler_tree handler.now)) }
{
    let mut scope = Scope::of(alloc, layer, own);
    let locals = head_locals(alloc, &scope, handler)?;
    scope.extend(&locals)?;
    Ok(scope)
}

/// How many arguments a handler has.
fn arity(found: &mut Found, handler: &Handler)
    ensures { Finds found.old
        (unless (length (names_in (Some (handler_tree handler.now).names)) == length (arguments_of handler.now.kind))
        (fault.arity handler.now.at)) found.new }
{
    let count = Count::After(handler.names.rest.len());
    let holds = is_same_count(count, argument_count(handler.kind));
    note_unless(found, holds, Cause::Arity, handler.at);
}

/// Whether a handler may take a header off.
fn takes_off(handler: &Handler) -> bool
    ensures { result ≡ spec.takes_off (handler_tree handler.now) }
{
    !pushes(handler.direction) && carries(handler.kind)
}

/// The header that a handler takes off, in the scope of its layer's own names.
#[tactic(auto, using(file_scope::proofs::Finds::finds_none))]
fn popped(found: &mut Found, scope: &Scope, handler: &Handler)
    ensures { Finds found.old
        (option_map_or (λ p. spec.with_faults (scope_of scope.now).layer handler.now.at p.name
        (length (scopes.popped_names (Some p))) (spec.takes_off (handler_tree handler.now)))
        (option_map popped_tree handler.now.popped) []) found.new }
{
    match &handler.popped {
        None => {}
        Some(p) => {
            let with = With {
                at: handler.at,
                name: &p.name,
                count: count_names(&p.fields),
            };
            header(found, scope, with, takes_off(handler));
        }
    }
}

/// The condition of a handler.
#[tactic(auto, using(file_scope::proofs::Finds::finds_none))]
fn expected(found: &mut Found, scope: &Scope, e: &Expected)
    ensures { Finds found.old (spec.expected_type_faults (scope_of scope.now) (expected_tree e.now)) found.new }
{
    match e {
        Expected::Common(condition) => expression(found, scope, condition),
        Expected::Always | Expected::Rare => {}
    }
}

/// A handler of a layer, with the table of the layer's own words.
#[tactic(auto, using(crate::proofs::Handlers::handler_parts))]
fn handler(
    alloc: Global,
    found: &mut Found,
    layer: &Layer,
    own: &Words,
    handler: &Handler,
) -> Result<(), AllocError>
    requires { own.now ≡ own_words (layer_tree layer.now) }
    ensures { OnOk result
        (Finds found.old (spec.handler_type_faults (layer_tree layer.now) (handler_tree handler.now)) found.new) }
{
    arity(found, handler);
    let mut scope = head(alloc, layer, own, handler)?;
    popped(found, &scope, handler);
    expected(found, &scope, &handler.expected);
    block(alloc, found, &mut scope, &handler.block)?;
    Ok(())
}

/// The handlers of a layer, with the table of the layer's own words.
#[tactic(auto, using(file_scope::proofs::Finds::finds_none, file_scope::proofs::Finds::part_more))]
pub fn handlers(
    alloc: Global,
    found: &mut Found,
    layer: &Layer,
    own: &Words,
) -> Result<(), AllocError>
    requires { own.now ≡ own_words (layer_tree layer.now) }
    ensures { OnOk result
        (Finds found.old (flat_map (spec.handler_type_faults (layer_tree layer.now)) (layer_tree layer.now).handlers)
        found.new) }
{
    for h in &layer.handlers {
        handler(alloc, found, layer, own, h)?;
    }
    Ok(())
}
