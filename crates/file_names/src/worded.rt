//! Layers with the words that they declare.

ghost use Rattle.std.specs.Prelude.{◌≡◌};
ghost use Rattle.layer_ast.specs.View.{layer_tree};
ghost use Rattle.file_scope.specs.Words.{own_words};

use file_scope::Words;
use layer_ast::Layer;

/// A layer, with the table of its own words.
#[derive(Clone, Copy)]
pub struct WordedLayer<'a> {
    pub layer: &'a Layer,
    /// The words that the layer declares, in order.
    pub own: &'a Words,
    ghost own_is: { own.now ≡ own_words (layer_tree layer.now) },
}
