//! The layers of a file and of its library, found by name.

ghost use Rattle.std.specs.Prelude.{◌≡◌, filter_map, flat_map, map, OnOk, IfOk};
ghost use Rattle.layer_ast.specs.View.{file_tree, layer_tree, place_tree};
ghost use Rattle.fault_mean.specs.Faults.{type_fault_at};
ghost use Rattle.fault_mean.specs.Places.{called_at, faults_of_judged};
ghost use Rattle.fault_mean.specs.TypeFaults.{layer_type_faults};
ghost use Rattle.file_expressions.specs.Found.{Finds};
ghost use Rattle.file_types.specs.Files.{called_faults, rank_of};
ghost use Rattle.file_scope.specs.Words.{own_words};

use crate::layer::layer;
use file_scope::{Found, Words, layer_words};
use layer_ast::{File, Layer, Place};
use std::alloc::{AllocError, Global};

/// The layers of a file's library, each judged once for all places that name it.
#[derive(Drop)]
pub struct Ranked<'a> {
    file: &'a File,
    /// The names of the file's layers, and of those of the library.
    written: Words,
    names: Words,
    /// For each layer the rank of its first fault, once its faults are moved to one place.
    ranks: Vec<Option<u8>>,
    ghost written_are: { written ≡ map (λ layer. layer.name.word) (file_tree file.now).layers },
    ghost names_are: { names ≡ map (λ layer. layer.name.word) (file_tree file.now).library },
    ghost ranks_are: { ranks.items ≡ map rank_of (file_tree file.now).library },
}

/// The layers that a file writes, each with the table of its own words.
#[tactic(auto, using(crate::proofs::Rules::of_written))]
pub fn written(
    alloc: Global,
    found: &mut Found,
    layers: &[Layer],
    tables: &[Words],
) -> Result<(), AllocError>
    requires { tables.now ≡ map own_words (map layer_tree layers.now) }
    ensures { OnOk result (Finds found.old (flat_map layer_type_faults (map layer_tree layers.now)) found.new) }
{
    for k in 0..layers.len() {
        layer(alloc, found, &layers[k], &tables[k])?;
    }
    Ok(())
}

/// The rank of the first fault of a layer, once its faults are moved to one place.
fn rank(alloc: Global, of_library: &Layer, own: &Words) -> Result<Option<u8>, AllocError>
    requires { own.now ≡ own_words (layer_tree of_library.now) }
    ensures { IfOk result (λ rank. rank ≡ rank_of (layer_tree of_library.now)) }
{
    let mut found = Found::moved();
    layer(alloc, &mut found, of_library, own)?;
    Ok(found.rank())
}

/// The ranks of the first faults of layers, each with the table of its own words.
#[tactic(auto, using(file_scope::proofs::Layers::made_within, file_scope::proofs::Layers::made_at))]
fn ranks(alloc: Global, layers: &[Layer], tables: &[Words]) -> Result<Vec<Option<u8>>, AllocError>
    requires { tables.now ≡ map own_words (map layer_tree layers.now) }
    ensures { IfOk result (λ all. all.items ≡ map rank_of (map layer_tree layers.now)) }
{
    let mut all = Vec::new(alloc);
    for k in 0..layers.len() {
        let one = rank(alloc, &layers[k], &tables[k])?;
        all.push(one)?;
    }
    Ok(all)
}

/// The layers of a file's library, with the tables of their own words.
pub fn rank_library<'a>(
    alloc: Global,
    file: &'a File,
    tables: &[Words],
) -> Result<Ranked<'a>, AllocError>
    requires { tables.now ≡ map own_words (file_tree file.now).library }
    ensures { IfOk result (λ library. library.file.now ≡ file.now) }
{
    let written = layer_words(alloc, &file.layers)?;
    let names = layer_words(alloc, &file.library)?;
    let ranks = ranks(alloc, &file.library, tables)?;
    Ok(Ranked {
        file,
        written,
        names,
        ranks,
    })
}

/// The library's layer that a place names, if it names one: its faults stand at this place.
#[tactic(auto, using(file_scope::proofs::Layers::within_made))]
fn called(found: &mut Found, library: &Ranked, place: &Place)
    ensures { Finds found.old (called_faults (file_tree library.now.file.now) (place_tree place.now)) found.new }
{
    match library.written.position(&place.name.word) {
        Some(_) => {}
        None => match library.names.position(&place.name.word) {
            None => {}
            Some(k) => found.note_rank(library.ranks[k], place.name.at),
        },
    }
}

/// The layers of the library, for each place that names one.
#[tactic(auto, using(file_scope::proofs::Finds::finds_none, crate::proofs::Calls::called_more))]
pub fn calls(found: &mut Found, library: &Ranked, places: &[Place])
    ensures { Finds found.old
        (flat_map (faults_of_judged type_fault_at layer_type_faults)
        (filter_map (called_at (file_tree library.now.file.now)) (map place_tree places.now))) found.new }
{
    for place in places {
        called(found, library, place);
    }
}
