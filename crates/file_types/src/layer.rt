//! The types of a layer.

ghost use Rattle.std.specs.Prelude.{◌≡◌, flat_map, OnOk};
ghost use Rattle.layer_ast.specs.View.{layer_tree};
ghost use Rattle.fault_mean.specs.TypeFaults as spec;
ghost use Rattle.file_expressions.specs.Found.{Finds};
ghost use Rattle.file_scope.specs.Words.{own_words};

use crate::declaration::declarations;
use crate::handler::handlers;
use file_scope::{Found, Scope, Words};
use layer_ast::Layer;
use std::alloc::{AllocError, Global};

/// The declarations of a layer, with the table of its own words.
#[tactic(auto, using(crate::proofs::Handlers::own_declarations))]
fn declared(alloc: Global, found: &mut Found, layer: &Layer, own: &Words)
    requires { own.now ≡ own_words (layer_tree layer.now) }
    ensures { Finds found.old
        (flat_map (spec.declaration_type_faults (layer_tree layer.now)) (layer_tree layer.now).declarations) found.new }
{
    let scope = Scope::of(alloc, layer, own);
    declarations(found, &scope, &layer.declarations);
}

/// A layer, with the table of its own words.
#[tactic(auto, using(file_scope::proofs::Finds::finds_both))]
pub fn layer(alloc: Global, found: &mut Found, layer: &Layer, own: &Words) -> Result<(), AllocError>
    requires { own.now ≡ own_words (layer_tree layer.now) }
    ensures { OnOk result (Finds found.old (spec.layer_type_faults (layer_tree layer.now)) found.new) }
{
    declared(alloc, found, layer, own);
    handlers(alloc, found, layer, own)?;
    Ok(())
}
