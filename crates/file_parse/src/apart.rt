//! The reading of files layer by layer, with the tokens of one layer at a time.
ghost use Rattle.std.specs.Prelude.{◌≤◌, length, map, IfOk, IfSome};
ghost use Rattle.layer_ast.specs.Spells.{Spells, longest_file};
ghost use Rattle.layer_ast.specs.View.{file_tree, layer_tree, place_tree};
ghost use Rattle.file_parse.specs.Reading.{IsLayer, IsStack};

use crate::files::{DEEPEST, begins_layer, layer, stack};
use crate::readers::Fault;
use file_lex::{Left, cut_part};
use layer_ast::{File, Layer, Lexed, Place};
use std::alloc::{AllocError, Global};

/// How many tokens there is room for at first.
const ROOM: usize = 256;

/// Reads a file by cutting and reading its layers one after another. It answers none where a part isn't what it should
/// be.
pub fn by_layers(alloc: Global, text: &[u8]) -> Result<Option<File>, AllocError>
    requires { length text.now ≤ longest_file }
    ensures { IfOk result (λ o. IfSome o (λ f. Spells text.now (file_tree f))) }
{
    let mut tokens = Vec::with_capacity(alloc, ROOM)?;
    let mut layers = Vec::new(alloc);
    let Some(mut left) = cut_part(&mut tokens, Left::of(text))? else {
        return Ok(None);
    };
    while begins_layer(&tokens) {
        let Some(next) = one_layer(alloc, &tokens)? else {
            return Ok(None);
        };
        layers.push(next)?;
        tokens.clear();
        let Some(following) = cut_part(&mut tokens, left)? else {
            return Ok(None);
        };
        left = following;
    }
    if !left.is_at_end() {
        return Ok(None);
    }
    let Some(places) = last_places(alloc, &tokens)? else {
        return Ok(None);
    };
    let library = Vec::new(alloc);
    Ok(Some(File {
        layers,
        places,
        library,
    }))
}

/// The layer that tokens are, if they are one.
fn one_layer(alloc: Global, tokens: &[Lexed]) -> Result<Option<Layer>, AllocError>
    ensures { IfOk result (λ o. IfSome o (λ l. IsLayer tokens.now (layer_tree l))) }
{
    match layer(alloc, DEEPEST, tokens) {
        Ok((layer, rest)) => {
            if rest.is_empty() {
                Ok(Some(layer))
            } else {
                Ok(None)
            }
        }
        Err(Fault::Refused(_)) => Ok(None),
        Err(Fault::Memory) => Err(AllocError),
    }
}

/// The places of the stack that tokens are, if they are one.
fn last_places(alloc: Global, tokens: &[Lexed]) -> Result<Option<Vec<Place>>, AllocError>
    ensures { IfOk result (λ o. IfSome o (λ ps. IsStack tokens.now (map place_tree ps.items))) }
{
    match stack(alloc, tokens) {
        Ok(places) => Ok(Some(places)),
        Err(Fault::Refused(_)) => Ok(None),
        Err(Fault::Memory) => Err(AllocError),
    }
}
