//! The faults of layers.

ghost use Rattle.std.specs.Prelude.{◌≡◌, [], filter, map, drop, OnOk, IfOk};
ghost use Rattle.layer_ast.specs.View.{declaration_tree, handler_tree, layer_tree};
ghost use Rattle.fault_mean.specs.Declared as spec;
ghost use Rattle.fault_mean.specs.Faults as fault;
ghost use Rattle.fault_mean.specs.NameFaults.{declared_faults, layer_name_faults, names_where, too_many_of};
ghost use Rattle.fault_mean.specs.NameFaults.{twice_among};
ghost use Rattle.file_names.specs.Found.{Finds};
ghost use Rattle.file_names.specs.Gathered.{sizes_of};
ghost use Rattle.file_names.specs.Layers.{test_of};
ghost use Rattle.fault_mean.specs.Limits.{most_handlers};

use crate::declaration::declarations;
use crate::events::handlers_twice;
use crate::found::{Cause, Found, note};
use crate::handler::handlers;
use crate::names::{too_many, twice};
use crate::sizes::{Sizes, capacities};
use crate::worded::WordedLayer;
use file_scope::{Scope, declared_name};
use layer_ast::{Declaration, Handler, Layer, Name};
use std::alloc::{AllocError, Global};

/// The most params of a layer.
const MOST_PARAMS: usize = 16;

/// The most cells of a layer.
const MOST_CELLS: usize = 16;

/// The most headers of a layer.
const MOST_DECLARED: usize = 7;

/// The most handlers of a layer.
const MOST_HANDLERS: usize = 64;

/// What a declaration declares.
#[derive(Clone, Copy)]
enum Form {
    Param,
    Cell,
    Header,
}

/// Whether a declaration is of a form.
fn is_of(form: Form, declaration: &Declaration) -> bool
    ensures { result ≡ test_of form (declaration_tree declaration.now) }
{
    match form {
        Form::Param => matches!(declaration, Declaration::Param { .. }),
        Form::Header => matches!(declaration, Declaration::Header { .. }),
        Form::Cell => matches!(
            declaration,
            Declaration::Int { .. } | Declaration::Queue { .. } | Declaration::Queues { .. }
        ),
    }
}

/// The names of the declarations of a form.
fn names_of(
    alloc: Global,
    form: Form,
    declarations: &[Declaration],
) -> Result<Vec<Name>, AllocError>
    ensures { IfOk result
        (λ all. all.items ≡ map spec.declared_name (filter (test_of form) (map declaration_tree declarations.now))) }
{
    let mut all = Vec::new(alloc);
    for declaration in declarations {
        if is_of(form, declaration) {
            all.push(*declared_name(declaration))?;
        }
    }
    Ok(all)
}

/// The names of all declarations.
fn all_names(alloc: Global, declarations: &[Declaration]) -> Result<Vec<Name>, AllocError>
    ensures { IfOk result (λ all. all.items ≡ map spec.declared_name (map declaration_tree declarations.now)) }
{
    let mut all = Vec::new(alloc);
    for declaration in declarations {
        all.push(*declared_name(declaration))?;
    }
    Ok(all)
}

/// Judges the number of declarations of a form, of which there may be `most`.
fn few(
    alloc: Global,
    found: &mut Found,
    form: Form,
    most: usize,
    layer: &Layer,
) -> Result<(), AllocError>
    ensures { OnOk result
        (Finds found.old (too_many_of most (names_where (test_of form) (layer_tree layer.now))) found.new) }
{
    let names = names_of(alloc, form, &layer.declarations)?;
    too_many(found, most, &names);
    Ok(())
}

/// Judges the names that a layer declares, none of which may be there twice.
fn each_once(alloc: Global, found: &mut Found, layer: &Layer) -> Result<(), AllocError>
    ensures { OnOk result
        (Finds found.old (twice_among [] (map spec.declared_name (layer_tree layer.now).declarations)) found.new) }
{
    let names = all_names(alloc, &layer.declarations)?;
    twice(alloc, found, &names)?;
    Ok(())
}

/// Judges the declarations of a layer.
fn declared(alloc: Global, found: &mut Found, worded: &WordedLayer<'_>) -> Result<(), AllocError>
    ensures { OnOk result (Finds found.old (declared_faults (layer_tree worded.now.layer.now)) found.new) }
{
    let layer = worded.layer;
    each_once(alloc, found, layer)?;
    few(alloc, found, Form::Param, MOST_PARAMS, layer)?;
    few(alloc, found, Form::Cell, MOST_CELLS, layer)?;
    few(alloc, found, Form::Header, MOST_DECLARED, layer)?;
    let scope = Scope::of(alloc, layer, worded.own);
    declarations(alloc, found, &scope, &layer.declarations)?;
    Ok(())
}

/// Notes each of these handlers as one too many.
#[tactic(auto, using(file_scope::proofs::Finds::finds_none))]
fn all_too_many(found: &mut Found, handlers: &[Handler])
    ensures { Finds found.old (map (λ h. fault.too_many h.at) (map handler_tree handlers.now)) found.new }
{
    for handler in handlers {
        note(found, Cause::TooMany, handler.at);
    }
}

/// Judges the number of handlers of a layer, of which there may be `MOST_HANDLERS`.
#[tactic(auto, using(crate::proofs::Layers::none_beyond))]
fn few_handlers(found: &mut Found, handlers: &[Handler])
    ensures { Finds found.old (map (λ h. fault.too_many h.at) (drop most_handlers (map handler_tree handlers.now)))
        found.new }
{
    if handlers.len() > MOST_HANDLERS {
        all_too_many(found, &handlers[MOST_HANDLERS..]);
    }
}

/// Judges a layer, and answers the names that are sizes in it.
pub fn layer(
    alloc: Global,
    found: &mut Found,
    worded: &WordedLayer<'_>,
) -> Result<Sizes, AllocError>
    ensures finds { OnOk result (Finds found.old (layer_name_faults (layer_tree worded.now.layer.now)) found.new) }
    ensures sizes { IfOk result (λ sizes. sizes ≡ sizes_of (layer_tree worded.now.layer.now)) }
{
    declared(alloc, found, worded)?;
    handlers_twice(alloc, found, &worded.layer.handlers)?;
    few_handlers(found, &worded.layer.handlers);
    let maxima = handlers(alloc, found, worded)?;
    let capacities = capacities(alloc, &worded.layer.declarations)?;
    Ok(Sizes { capacities, maxima })
}
