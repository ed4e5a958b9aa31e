//! The library of protocol layers: fifteen texts in the language of layers, which a stack names without writing them
//! out.
#![tactic(auto)]

mod flow;
mod membership;
mod order;
mod reliable;

ghost use Rattle.std.specs.Prelude.{◌≡◌, option_map, map, find, bytes_eq};
ghost use Rattle.file_library.specs.Library.{library, library_text};

use flow::{FRAG, MFLOW, PT2PTW};
use membership::{ELECT, INTRA, SUSPECT, SYNC, TOP};
use order::{COLLECT, LOCAL, STABLE, TOTAL};
use reliable::{BOTTOM, MNAK, PT2PT};

/// The text of the library's layer of this name, both as bytes: ASCII, each line of the text ended by a line feed.
pub fn text_of(name: &[u8]) -> Option<&'static [u8]>
    ensures { option_map (λ text. text.now) result ≡ library_text name.now }
{
    named(library(), name)
}

// The text of the first of these layers that has this name.
fn named<'a>(layers: &[(&[u8], &'a [u8])], name: &[u8]) -> Option<&'a [u8]>
    ensures { option_map (λ text. text.now) result
        ≡ option_map (λ layer. layer.1.now) (find (λ layer. bytes_eq name.now layer.0.now) layers.now) }
{
    let layer = layers.iter().find(|layer| name == layer.0)?;
    Some(layer.1)
}

// Each layer's name and text, lowest first.
fn library() -> &'static [(&'static [u8], &'static [u8])]
    ensures { map (λ layer. (layer.0.now, layer.1.now)) result.now ≡ library }
{
    &[
        (b"bottom", BOTTOM),
        (b"mnak", MNAK),
        (b"pt2pt", PT2PT),
        (b"pt2ptw", PT2PTW),
        (b"mflow", MFLOW),
        (b"frag", FRAG),
        (b"collect", COLLECT),
        (b"stable", STABLE),
        (b"local", LOCAL),
        (b"total", TOTAL),
        (b"suspect", SUSPECT),
        (b"elect", ELECT),
        (b"sync", SYNC),
        (b"intra", INTRA),
        (b"top", TOP),
    ]
}
