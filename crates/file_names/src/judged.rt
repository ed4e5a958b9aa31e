//! The layers of a file and of its library, found by name, each with what places need of them.

ghost use Rattle.std.specs.Prelude.{◌≡◌, map, IfOk, OnOk, flat_map};
ghost use Rattle.layer_ast.specs.View.{file_tree, layer_tree};
ghost use Rattle.fault_mean.specs.NameFaults.{layer_name_faults};
ghost use Rattle.file_scope.specs.Words.{own_words};
ghost use Rattle.file_names.specs.Called.{called_of};
ghost use Rattle.file_names.specs.Found.{Finds};
ghost use Rattle.file_names.specs.Gathered.{sizes_of};
ghost use Rattle.file_names.specs.Tables.{IsTables};

use crate::found::Found;
use crate::layer::layer;
use crate::library::{Called, library};
use crate::sizes::Sizes;
use crate::tables::Tables;
use crate::worded::WordedLayer;
use file_scope::{Words, layer_words};
use layer_ast::{File, Layer};
use std::alloc::{AllocError, Global};

/// The layers of a file, judged.
#[derive(Drop)]
pub struct Judged<'a> {
    pub file: &'a File,
    pub tables: &'a Tables,
    /// The names of the file's layers, and of those of the library.
    pub written_names: Words,
    pub library_names: Words,
    /// What was gathered as each layer was judged.
    pub written: Vec<Sizes>,
    pub library: Vec<Called>,
    ghost tables_are: { IsTables tables.now (file_tree file.now) },
    ghost written_names_are: { written_names ≡ map (λ layer. layer.name.word) (file_tree file.now).layers },
    ghost library_names_are: { library_names ≡ map (λ layer. layer.name.word) (file_tree file.now).library },
    ghost written_is: { written.items ≡ map sizes_of (file_tree file.now).layers },
    ghost library_is: { library.items ≡ map called_of (file_tree file.now).library },
}

/// Judges the layers that a file writes, each with the table of its own words, and answers the names that are sizes in
/// each.
#[tactic(auto, using(file_scope::proofs::Finds::finds_none, crate::proofs::Rules::made_row))]
fn written(
    alloc: Global,
    found: &mut Found,
    layers: &[Layer],
    tables: &[Words],
) -> Result<Vec<Sizes>, AllocError>
    requires { tables.now ≡ map own_words (map layer_tree layers.now) }
    ensures finds { OnOk result (Finds found.old (flat_map layer_name_faults (map layer_tree layers.now)) found.new) }
    ensures sizes { IfOk result (λ all. all.items ≡ map sizes_of (map layer_tree layers.now)) }
{
    let mut all = Vec::new(alloc);
    for k in 0..layers.len() {
        let worded = WordedLayer {
            layer: &layers[k],
            own: &tables[k],
        };
        let sizes = layer(alloc, found, &worded)?;
        all.push(sizes)?;
    }
    Ok(all)
}

/// Judges the layers that a file writes, and those of the library, whose faults count only where places name them.
pub fn judge<'a>(
    alloc: Global,
    found: &mut Found,
    file: &'a File,
    tables: &'a Tables,
) -> Result<Judged<'a>, AllocError>
    requires { IsTables tables.now (file_tree file.now) }
    ensures finds { OnOk result (Finds found.old (flat_map layer_name_faults (file_tree file.now).layers) found.new) }
    ensures file { IfOk result (λ judged. judged.file.now ≡ file.now) }
{
    let written = written(alloc, found, &file.layers, &tables.layers)?;
    let library = library(alloc, &file.library, &tables.library)?;
    let written_names = layer_words(alloc, &file.layers)?;
    let library_names = layer_words(alloc, &file.library)?;
    Ok(Judged {
        file,
        tables,
        written_names,
        library_names,
        written,
        library,
    })
}
