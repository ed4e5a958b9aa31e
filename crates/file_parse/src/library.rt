//! The layers that the library brings a file.
ghost use Rattle.std.specs.Prelude.{◌≡◌, ◌++◌, [], ◌∷◌, IfOk, map, not, bytes_eq};
ghost use Rattle.std.specs.List.{AllZip, list_any};
ghost use Rattle.file_mean.specs.Library.{SpellsLayer};
ghost use Rattle.layer_ast.specs.View.{layer_tree, place_tree};
ghost use Rattle.file_parse.specs.Library.{IsLayerText, BringsFor, called_texts, has};

use crate::files::{DEEPEST, layer};
use crate::readers::Fault;
use file_lex::cut;
use file_library::text_of;
use layer_ast::{Layer, Place};
use layer_words::Word;
use std::alloc::{AllocError, Global};

/// The layers of the library that places name and a file lacks, each once, in the order of the places. Each name of the
/// library is looked for among the layers at most once.
pub fn library(alloc: Global, layers: &[Layer], places: &[Place]) -> Result<Vec<Layer>, AllocError>
    ensures { IfOk result (λ v. AllZip SpellsLayer
        (called_texts (map layer_tree layers.now) (map (λ place. place.name.word) (map place_tree places.now)))
        (map layer_tree v.items)) }
{
    let mut seen = Vec::new(alloc);
    let mut brought = Vec::new(alloc);
    for place in places {
        bring(alloc, layers, &place.name.word, &mut seen, &mut brought)?;
    }
    Ok(brought)
}

/// Brings the library's layer of a name, if there is one, the name wasn't looked for before, and the file lacks it.
fn bring(
    alloc: Global,
    layers: &[Layer],
    word: &Word,
    seen: &mut Vec<Word>,
    brought: &mut Vec<Layer>,
) -> Result<(), AllocError>
    ensures { IfOk result (λ _. BringsFor (map layer_tree layers.now) word.now seen.old.items seen.new.items
        (map layer_tree brought.old.items) (map layer_tree brought.new.items)) }
{
    let Some(text) = text_of(word.bytes()) else {
        return Ok(());
    };
    if is_among(seen, word) {
        return Ok(());
    }
    seen.push(*word)?;
    if has_layer(layers, word) {
        return Ok(());
    }
    let layer = spelled(alloc, text)?;
    brought.push(layer)?;
    Ok(())
}

/// Whether a word is one of these.
fn is_among(words: &[Word], word: &Word) -> bool
    ensures { result ≡ has words.now word.now }
{
    words.iter().any(|other| other.bytes() == word.bytes())
}

/// Whether a layer has this name.
fn has_layer(layers: &[Layer], word: &Word) -> bool
    ensures { result ≡ list_any (λ layer. bytes_eq layer.name.word word.now) layers.now }
{
    layers
        .iter()
        .any(|layer| layer.name.word.bytes() == word.bytes())
}

/// Reads a text of the library, which is one layer.
fn spelled(alloc: Global, text: &[u8]) -> Result<Layer, AllocError>
    requires { IsLayerText text.now }
    ensures { IfOk result (λ l. SpellsLayer text.now (layer_tree l)) }
{
    let tokens = cut(alloc, text)?;
    match layer(alloc, DEEPEST, &tokens.tokens) {
        Ok((layer, _)) => Ok(layer),
        Err(Fault::Refused(_)) => unreachable!(),
        Err(Fault::Memory) => Err(AllocError),
    }
}
