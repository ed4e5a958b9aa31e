//! The faults of handlers.

ghost use Rattle.std.specs.Prelude.{◌≡◌, ◌++◌, [], flat_map, fold, map, OnOk, IfOk};
ghost use Rattle.layer_ast.specs.View.{handler_tree, layer_tree};
ghost use Rattle.fault_mean.specs.NameFaults.{handler_name_faults};
ghost use Rattle.fault_mean.specs.Scope as spec;
ghost use Rattle.file_names.specs.Found.{Finds};
ghost use Rattle.file_names.specs.Gathered.{maxima_of, noted_words};
ghost use Rattle.file_names.specs.Handlers.{block_part, head_part};
ghost use Rattle.file_scope.specs.Scope.{scope_of};

use crate::block::block;
use crate::found::Found;
use crate::gather;
use crate::head::{expected, popped};
use crate::names::too_many;
use crate::scope::declare;
use crate::worded::WordedLayer;
use file_scope::{Scope, Words, head_locals, head_names};
use layer_ast::Handler;
use std::alloc::{AllocError, Global};

/// The most names that a handler declares.
const MOST_NAMES: usize = 64;

/// Judges the head of a handler, in the scope of its layer's own names, to which the locals of the head are added.
fn head(
    alloc: Global,
    found: &mut Found,
    scope: &mut Scope,
    handler: &Handler,
) -> Result<(), AllocError>
    requires { (scope_of scope.now).locals ≡ [] }
    ensures { OnOk result (Finds found.old (head_part (scope_of scope.old).layer (handler_tree handler.now)) found.new ×
        (scope_of scope.new ≡ spec.head_scope (scope_of scope.old).layer (handler_tree handler.now))) }
{
    popped(found, scope, &handler.popped);
    let locals = head_locals(alloc, scope, handler)?;
    declare(found, scope, &locals)?;
    Ok(())
}

/// Judges the head, the condition and the block of a handler, in the scope of its layer's own names.
fn inside(
    alloc: Global,
    found: &mut Found,
    worded: &WordedLayer<'_>,
    handler: &Handler,
) -> Result<(), AllocError>
    ensures { OnOk result
        (Finds found.old (block_part (layer_tree worded.now.layer.now) (handler_tree handler.now)) found.new) }
{
    let mut scope = Scope::of(alloc, worded.layer, worded.own);
    head(alloc, found, &mut scope, handler)?;
    expected(found, &scope, &handler.expected);
    block(alloc, found, &mut scope, &handler.block)?;
    Ok(())
}

/// Judges a handler, in the scope of its layer's own names. The names of its maxima are added to those of its layer.
fn handler(
    alloc: Global,
    found: &mut Found,
    maxima: &mut Words,
    worded: &WordedLayer<'_>,
    handler: &Handler,
) -> Result<(), AllocError>
    ensures { OnOk result
        (Finds found.old (handler_name_faults (layer_tree worded.now.layer.now) (handler_tree handler.now)) found.new ×
        (maxima.new ≡ fold noted_words maxima.old (maxima_of (handler_tree handler.now)))) }
{
    inside(alloc, found, worded, handler)?;
    let mut names = head_names(alloc, handler)?;
    gather::block(&mut names, maxima, &handler.block)?;
    too_many(found, MOST_NAMES, &names);
    Ok(())
}

/// Judges the handlers of a layer, in the scope of its own names, and answers the names of their maxima.
#[tactic(auto, using(file_scope::proofs::Finds::finds_none))]
pub fn handlers(
    alloc: Global,
    found: &mut Found,
    worded: &WordedLayer<'_>,
) -> Result<Words, AllocError>
    ensures { OnOk result
        (Finds found.old (flat_map (handler_name_faults (layer_tree worded.now.layer.now))
        (layer_tree worded.now.layer.now).handlers) found.new) × IfOk result
        (λ maxima. maxima ≡ fold noted_words [] (flat_map maxima_of (layer_tree worded.now.layer.now).handlers)) }
{
    let mut maxima = Words::new(alloc);
    for h in &worded.layer.handlers {
        handler(alloc, found, &mut maxima, worded, h)?;
    }
    Ok(maxima)
}
