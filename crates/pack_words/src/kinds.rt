//! Words of kinds and functions.
#![tactic(auto, unfolding(layer_words::specs::Spelling::tables))]

ghost use Rattle.std.specs.Prelude.{◌≡◌, ◌∷◌, []};
ghost use Rattle.pack_mean.specs.Named as named;
ghost use Rattle.pack_words.specs.Names.{words_in};

use crate::name::Name;
use layer_words::{Function, Kind};

/// The kind of event of a name.
pub fn kind_named(name: Name<'_>) -> Option<Kind>
    ensures { result ≡ named.kind_named (words_in name.entry) }
{
    match name {
        Name::One(word) => Kind::of_word(word),
        _ => None,
    }
}

/// The function of a word.
pub fn function_of(word: &[u8]) -> Option<Function>
    ensures { result ≡ named.function_named (word.now ∷ []) }
{
    if word == b"not".as_slice() {
        Some(Function::Not)
    } else if word == b"bit".as_slice() {
        Some(Function::Bit)
    } else if word == b"count".as_slice() {
        Some(Function::Count)
    } else if word == b"lowest".as_slice() {
        Some(Function::Lowest)
    } else {
        None
    }
}

/// The function of a name.
pub fn function_named(name: Name<'_>) -> Option<Function>
    ensures { result ≡ named.function_named (words_in name.entry) }
{
    match name {
        Name::One(word) => function_of(word),
        _ => None,
    }
}
