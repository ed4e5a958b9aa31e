//! Sizes that are names.

ghost use Rattle.std.specs.Prelude.{◌≡◌, [], flat_map, fold, map, OnOk, IfOk};
ghost use Rattle.layer_ast.specs.View.{declaration_tree, size_tree};
ghost use Rattle.file_names.specs.Gathered.{capacity_words, noted_words, size_words};

use file_scope::Words;
use layer_ast::{Declaration, Size};
use layer_words::Word;
use std::alloc::{AllocError, Global};

/// The names that are sizes in a layer, each once: those of capacities, and those of maxima of loops.
#[derive(Drop)]
pub struct Sizes {
    pub capacities: Words,
    pub maxima: Words,
}

/// Adds a word, unless it is there.
fn note(words: &mut Words, word: &Word) -> Result<(), AllocError>
    ensures { OnOk result (words.new ≡ noted_words words.old word.now) }
{
    if words.position(word).is_none() {
        words.push(word)?;
    }
    Ok(())
}

/// Adds a size that is a name, unless it is there.
pub fn note_size(words: &mut Words, size: &Size) -> Result<(), AllocError>
    ensures { OnOk result (words.new ≡ fold noted_words words.old (size_words (size_tree size.now))) }
{
    match size {
        Size::Number { .. } => Ok(()),
        Size::Named { name } => note(words, &name.word),
    }
}

/// Adds the capacity of a declaration, if it is a name.
fn note_capacity(words: &mut Words, declaration: &Declaration) -> Result<(), AllocError>
    ensures { OnOk result (words.new ≡ fold noted_words words.old (capacity_words (declaration_tree declaration.now))) }
{
    match declaration {
        Declaration::Queue { capacity, .. } | Declaration::Queues { capacity, .. } => note_size(
            words, capacity,
        ),
        _ => Ok(()),
    }
}

/// The names that are capacities of declarations, each once.
pub fn capacities(alloc: Global, declarations: &[Declaration]) -> Result<Words, AllocError>
    ensures { IfOk result
        (λ words. words ≡ fold noted_words [] (flat_map capacity_words (map declaration_tree declarations.now))) }
{
    let mut words = Words::new(alloc);
    for declaration in declarations {
        note_capacity(&mut words, declaration)?;
    }
    Ok(words)
}
