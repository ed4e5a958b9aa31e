//! The layers of the library that a file's places name.

ghost use Rattle.std.specs.Prelude.{◌≡◌, map, IfOk};
ghost use Rattle.layer_ast.specs.View.{layer_tree};
ghost use Rattle.file_scope.specs.Words.{own_words};
ghost use Rattle.file_names.specs.Called.{called_of};

use crate::found::Found;
use crate::layer::layer;
use crate::sizes::Sizes;
use crate::worded::WordedLayer;
use file_scope::Words;
use layer_ast::Layer;
use std::alloc::{AllocError, Global};

/// A layer of the library, judged once for all places that name it.
#[derive(Drop)]
pub struct Called {
    pub sizes: Sizes,
    /// The rank of its first fault, once its faults are moved to one place.
    pub rank: Option<u8>,
}

/// Judges a layer of the library.
fn judge(alloc: Global, of_library: &WordedLayer<'_>) -> Result<Called, AllocError>
    ensures { IfOk result (λ called. called ≡ called_of (layer_tree of_library.now.layer.now)) }
{
    let mut found = Found::moved();
    let sizes = layer(alloc, &mut found, of_library)?;
    Ok(Called {
        sizes,
        rank: found.rank(),
    })
}

/// Judges the layers of the library, each with the table of its own words.
#[tactic(auto, using(crate::proofs::Rules::made_row))]
pub fn library(alloc: Global, layers: &[Layer], tables: &[Words]) -> Result<Vec<Called>, AllocError>
    requires { tables.now ≡ map own_words (map layer_tree layers.now) }
    ensures { IfOk result (λ all. all.items ≡ map called_of (map layer_tree layers.now)) }
{
    let mut all = Vec::new(alloc);
    for k in 0..layers.len() {
        let worded = WordedLayer {
            layer: &layers[k],
            own: &tables[k],
        };
        let one = judge(alloc, &worded)?;
        all.push(one)?;
    }
    Ok(all)
}
