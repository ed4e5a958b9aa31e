//! Lists of names, of items and of words.

ghost use Rattle.std.specs.Prelude.{◌≡◌, map, IfOk, Some, option_map};
ghost use Rattle.layer_ast.specs.View.{item_tree, items_tree, layer_tree, names_tree};
ghost use Rattle.fault_mean.specs.Declared as spec;

use crate::words::Words;
use layer_ast::{Item, Items, Layer, Name, Names};
use std::alloc::{AllocError, Global};

/// The names of a list that may be missing.
pub fn listed(alloc: Global, names: &Option<Names>) -> Result<Vec<Name>, AllocError>
    ensures { IfOk result (λ all. all.items ≡ spec.names_in (option_map names_tree names.now)) }
{
    match names {
        None => Ok(Vec::new(alloc)),
        Some(names) => written(alloc, names),
    }
}

/// The names of a list.
pub fn written(alloc: Global, names: &Names) -> Result<Vec<Name>, AllocError>
    ensures { IfOk result (λ all. all.items ≡ spec.names_in (Some (names_tree names.now))) }
{
    let mut all = Vec::with_capacity(alloc, names.rest.len() + 1)?;
    all.push(names.first)?;
    all.extend_from_slice(&names.rest)?;
    Ok(all)
}

/// The items of a row.
pub fn items(alloc: Global, row: &Items) -> Result<Vec<Item>, AllocError>
    ensures { IfOk result (λ all. map item_tree all.items ≡ spec.items_in (items_tree row.now)) }
{
    let mut all = Vec::with_capacity(alloc, row.rest.len() + 1)?;
    all.push(row.first)?;
    all.extend_from_slice(&row.rest)?;
    Ok(all)
}

/// The words that are names of layers.
#[tactic(auto, using(crate::proofs::Lists::trees_more))]
pub fn layer_words(alloc: Global, layers: &[Layer]) -> Result<Words, AllocError>
    ensures { IfOk result (λ words. words ≡ map (λ layer. layer.name.word) (map layer_tree layers.now)) }
{
    let mut words = Words::new(alloc);
    for layer in layers {
        words.push(&layer.name.word)?;
    }
    Ok(words)
}
