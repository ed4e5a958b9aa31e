//! The head of a handler: the names of its arguments, and those of the header that it takes off.

ghost use Rattle.std.specs.Prelude.{◌≡◌, ◌++◌, [], option_map, OnOk, IfOk};
ghost use Rattle.layer_ast.specs.View.{handler_tree, popped_tree};
ghost use Rattle.fault_mean.specs.Scope as spec;
ghost use Rattle.file_scope.specs.Scope.{locals_of, scope_of};
ghost use Rattle.file_scope.specs.Sorts.{sorts_of};

use crate::forms::declares_end;
use crate::locals::add_sorted;
use crate::names::{listed, written};
use crate::scope::{Local, Scope};
use crate::sorts::Sorts;
use layer_ast::{Handler, Name, Popped};
use layer_words::{Kind, Sort};
use std::alloc::{AllocError, Global};

/// The sort of the message after a popped header.
fn sort_after(scope: &Scope, popped: &Option<Popped>) -> Sort
    ensures { result ≡ spec.sort_after (scope_of scope.now).layer (option_map popped_tree popped.now) }
{
    match popped {
        None => Sort::Msg,
        Some(popped) => {
            if declares_end(scope, &popped.name.word) {
                Sort::Part
            } else {
                Sort::Msg
            }
        }
    }
}

/// The sorts of a handler's arguments.
fn argument_sorts(scope: &Scope, handler: &Handler) -> Sorts
    ensures { sorts_of result ≡ spec.argument_sorts (scope_of scope.now).layer (handler_tree handler.now) }
{
    match handler.kind {
        Kind::Cast | Kind::Send => Sorts::two(Sort::Int, sort_after(scope, &handler.popped)),
        Kind::Stable | Kind::Ack => Sorts::two(Sort::Int, Sort::Int),
        _ => Sorts::one(Sort::Int),
    }
}

/// The names of the fields of a popped header.
fn popped_names(alloc: Global, popped: &Option<Popped>) -> Result<Vec<Name>, AllocError>
    ensures { IfOk result (λ all. all.items ≡ spec.popped_names (option_map popped_tree popped.now)) }
{
    match popped {
        None => Ok(Vec::new(alloc)),
        Some(popped) => listed(alloc, &popped.fields),
    }
}

/// The names that the head of a handler declares.
pub fn head_names(alloc: Global, handler: &Handler) -> Result<Vec<Name>, AllocError>
    ensures { IfOk result (λ all. all.items ≡ spec.head_names (handler_tree handler.now)) }
{
    let mut names = written(alloc, &handler.names)?;
    let fields = popped_names(alloc, &handler.popped)?;
    names.extend_from_slice(&fields)?;
    Ok(names)
}

/// Adds the names of the fields of a popped header as locals, which are numbers.
fn add_fields(locals: &mut Vec<Local>, popped: &Option<Popped>) -> Result<(), AllocError>
    ensures { OnOk result
        (locals_of locals.new.items ≡ locals_of locals.old.items ++
        spec.locals_as [] (spec.popped_names (option_map popped_tree popped.now))) }
{
    match popped {
        None => Ok(()),
        Some(popped) => match &popped.fields {
            None => Ok(()),
            Some(names) => add_sorted(locals, &[], names),
        },
    }
}

/// The locals that the head of a handler declares.
pub fn head_locals(
    alloc: Global,
    scope: &Scope,
    handler: &Handler,
) -> Result<Vec<Local>, AllocError>
    ensures { IfOk result
        (λ all. locals_of all.items ≡ (spec.head_scope (scope_of scope.now).layer (handler_tree handler.now)).locals) }
{
    let sorts = argument_sorts(scope, handler);
    let mut locals = Vec::new(alloc);
    add_sorted(&mut locals, sorts.slice(), &handler.names)?;
    add_fields(&mut locals, &handler.popped)?;
    Ok(locals)
}
