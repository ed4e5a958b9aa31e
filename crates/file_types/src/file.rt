//! The first fault of a file's types.

ghost use Rattle.std.specs.Prelude.{◌≡◌, map, option_map, OnOk, IfOk};
ghost use Rattle.layer_ast.specs.View.{file_tree};
ghost use Rattle.fault_mean.specs.Faults.{type_fault_at};
ghost use Rattle.fault_mean.specs.Places.{faults_of_layers};
ghost use Rattle.fault_mean.specs.TypeFaults.{layer_type_faults, type_fault};
ghost use Rattle.file_expressions.specs.Found.{Finds};
ghost use Rattle.file_types.specs.Files.{shown_type_fault};
ghost use Rattle.file_scope.specs.Words.{own_words};

use crate::library::{calls, rank_library, written};
use file_scope::{Fault, Found, Words};
use layer_ast::File;
use std::alloc::{AllocError, Global};

/// A file, with the tables of its layers' own words.
fn all(
    alloc: Global,
    found: &mut Found,
    file: &File,
    layer_words: &[Words],
    library_words: &[Words],
) -> Result<(), AllocError>
    requires layers { layer_words.now ≡ map own_words (file_tree file.now).layers }
    requires library { library_words.now ≡ map own_words (file_tree file.now).library }
    ensures { OnOk result
        (Finds found.old (faults_of_layers type_fault_at layer_type_faults (file_tree file.now)) found.new) }
{
    written(alloc, found, &file.layers, layer_words)?;
    let library = rank_library(alloc, file, library_words)?;
    calls(found, &library, &file.places);
    Ok(())
}

/// The first fault of a file's types, with the tables of its layers' own words.
pub fn first_fault(
    alloc: Global,
    file: &File,
    layer_words: &[Words],
    library_words: &[Words],
) -> Result<Option<Fault>, AllocError>
    requires layers { layer_words.now ≡ map own_words (file_tree file.now).layers }
    requires library { library_words.now ≡ map own_words (file_tree file.now).library }
    ensures { IfOk result (λ first. option_map shown_type_fault first ≡ type_fault (file_tree file.now)) }
{
    let mut found = Found::new();
    all(alloc, &mut found, file, layer_words, library_words)?;
    Ok(found.first)
}
