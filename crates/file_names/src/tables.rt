//! Tables of a file's words.

ghost use Rattle.std.specs.Prelude.{◌≡◌, map, IfOk};
ghost use Rattle.layer_ast.specs.View.{declaration_tree, file_tree, given_tree, layer_tree, place_tree};
ghost use Rattle.fault_mean.specs.Declared as spec;
ghost use Rattle.file_scope.specs.Words.{own_words as words_of_layer};
ghost use Rattle.file_names.specs.Tables.{IsTables};

use file_scope::{Words, declared_name};
use layer_ast::{Declaration, File, Given, Layer, Name, Place};
use std::alloc::{AllocError, Global};

/// For each layer of a file, and for each that the library brings, the table of the words that it declares.
#[derive(Drop)]
pub struct Tables {
    pub layers: Vec<Words>,
    pub library: Vec<Words>,
}

/// The words that declarations declare.
fn own_words(alloc: Global, declarations: &[Declaration]) -> Result<Words, AllocError>
    ensures { IfOk result
        (λ words. words ≡ map (λ d. (spec.declared_name d).word) (map declaration_tree declarations.now)) }
{
    let mut words = Words::new(alloc);
    for declaration in declarations {
        words.push(&declared_name(declaration).word)?;
    }
    Ok(words)
}

/// The tables of some layers.
fn tables_of(alloc: Global, layers: &[Layer]) -> Result<Vec<Words>, AllocError>
    ensures { IfOk result (λ tables. tables.items ≡ map words_of_layer (map layer_tree layers.now)) }
{
    let mut tables = Vec::new(alloc);
    for layer in layers {
        let words = own_words(alloc, &layer.declarations)?;
        tables.push(words)?;
    }
    Ok(tables)
}

impl Tables {
    /// The tables of the layers of a file.
    pub fn of(alloc: Global, file: &File) -> Result<Tables, AllocError>
        ensures { IfOk result (λ tables. IsTables tables (file_tree file.now)) }
    {
        let layers = tables_of(alloc, &file.layers)?;
        let library = tables_of(alloc, &file.library)?;
        Ok(Tables { layers, library })
    }
}

/// The names of layers.
pub fn layer_names(alloc: Global, layers: &[Layer]) -> Result<Vec<Name>, AllocError>
    ensures { IfOk result (λ names. names.items ≡ map (λ layer. layer.name) (map layer_tree layers.now)) }
{
    let mut names = Vec::new(alloc);
    for layer in layers {
        names.push(layer.name)?;
    }
    Ok(names)
}

/// The names of places.
pub fn place_names(alloc: Global, places: &[Place]) -> Result<Vec<Name>, AllocError>
    ensures { IfOk result (λ names. names.items ≡ map (λ place. place.name) (map place_tree places.now)) }
{
    let mut names = Vec::new(alloc);
    for place in places {
        names.push(place.name)?;
    }
    Ok(names)
}

/// The names of the params that a place gives.
pub fn given_names(alloc: Global, given: &[Given]) -> Result<Vec<Name>, AllocError>
    ensures { IfOk result (λ names. names.items ≡ map (λ g. g.name) (map given_tree given.now)) }
{
    let mut names = Vec::new(alloc);
    for one in given {
        names.push(one.name)?;
    }
    Ok(names)
}

/// The words of the params that a place gives.
pub fn given_words(alloc: Global, given: &[Given]) -> Result<Words, AllocError>
    ensures { IfOk result (λ words. words ≡ map (λ g. g.name.word) (map given_tree given.now)) }
{
    let mut words = Words::new(alloc);
    for one in given {
        words.push(&one.name.word)?;
    }
    Ok(words)
}
