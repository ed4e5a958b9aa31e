//! Cells and headers of layers, by name.
//!
//! In a trace the numbers of cells, items and headers have eight bits: a larger one is answered as want of memory.

ghost use Rattle.std.specs.Prelude.{◌≡◌, ◌<◌, ◌∷◌, [], IfOk, IfSome, bytes_eq, length, map, option_map, slice_get};
ghost use Rattle.std.specs.List.{position};
ghost use Rattle.stack_judge.specs.Answer.{stack_tree};
ghost use Rattle.layer_mean.specs.Headers.{header_none};
ghost use Rattle.layer_mean.specs.Tree.{CellTree, HeaderTree};
ghost use Rattle.bypass_mean.specs.Text.{layer_of};
ghost use Rattle.pack_mean.specs.Named as named;
ghost use Rattle.pack_mean.specs.Named.{items_at, items_in, no_items};
ghost use Rattle.pack_mean.specs.Operation as operation;
ghost use Rattle.trace_mean.specs.Fuse as fuse;
ghost use Rattle.std.specs.Option.{option_map_or, unwrap_or};
ghost use Rattle.typed_layer.specs.View.{cell_tree, header_tree};
ghost use Rattle.pack_words.specs.Names.{words_in};
ghost use Rattle.pack_words.specs.View.{cell_shown, form_shown, item_in, items_shown, layer_shown, pair_of};
ghost use Rattle.trace_core.specs.View.{load_tree};

use crate::name::Name;
use crate::spot::Spot;
use layer_words::Word;
use script_text::number_within;
use stack_judge::Stack;
use std::alloc::AllocError;
use trace_core::Load;
use typed_layer::{Cell, Form, HeaderForm, Items, TypedLayer};

/// The layer at a place, if there is one.
pub fn layer_at(stack: &Stack, place: u32) -> Option<&TypedLayer>
    ensures { layer_shown result ≡ layer_of (stack_tree stack.now) place }
{
    if place < u32::from(stack.places()) {
        Some(stack.layer(place as u8))
    } else {
        None
    }
}

/// The cell of a layer that has this number, if there is one.
fn cell_of(layer: Option<&TypedLayer>, cell: u8) -> Option<&Cell>
    ensures { cell_shown result ≡ slice_get (layer_shown layer.entry).cells cell }
{
    match layer {
        Some(layer) => layer.cells.get(usize::from(cell)),
        None => None,
    }
}

/// A cell, if there is one.
pub fn cell_at(stack: &Stack, spot: Spot) -> Option<&Cell>
    ensures { cell_shown result ≡ slice_get (layer_of (stack_tree stack.now) spot.place).cells spot.cell }
{
    cell_of(layer_at(stack, u32::from(spot.place)), spot.cell)
}

/// What the rows of a cell have, if it is a queue.
fn items_of(cell: Option<&Cell>) -> Option<&Items>
    ensures { items_shown result ≡ unwrap_or (items_in (form_shown (cell_shown cell.entry))) no_items }
{
    match &cell?.form {
        Form::Numbers {
            shape: _,
            initial: _,
        } => None,
        Form::Queue { capacity: _, items } => Some(items),
        Form::Queues { capacity: _, items } => Some(items),
    }
}

/// What the rows of a cell have, if it is a queue.
pub fn items_named(stack: &Stack, spot: Spot) -> Option<&Items>
    ensures { items_shown result ≡ items_at (stack_tree stack.now) spot.place spot.cell }
{
    items_of(cell_at(stack, spot))
}

/// A number below a limit.
pub(crate) fn below(limit: usize, word: &[u8]) -> Option<u32>
    ensures is { result ≡ named.below limit word.now }
    ensures within { IfSome result (λ number. number < limit) }
{
    let number = number_within(0, u32::MAX, word)?;
    if (number as usize) < limit {
        Some(number)
    } else {
        None
    }
}

/// A place of a list, as traces keep it.
pub(crate) fn kept(place: Option<usize>) -> Result<Option<u8>, AllocError>
    ensures { IfOk result (λ kept. kept ≡ place) }
{
    match place {
        Some(place) => {
            if place > 255 {
                return Err(AllocError);
            }
            Ok(Some(place as u8))
        }
        None => Ok(None),
    }
}

/// The place of a word.
pub(crate) fn word_place(word: &[u8], words: &[Word]) -> Option<usize>
    ensures { result ≡ named.place_of word.now words.now }
{
    words.iter().position(|other| word == other.bytes())
}

/// The place of a word among the numbers of a row.
pub(crate) fn item_place(items: Option<&Items>, word: &[u8]) -> Option<usize>
    ensures { result ≡ named.place_of word.now (items_shown items.entry).numbers }
{
    match items {
        Some(items) => word_place(word, items.numbers.as_slice()),
        None => None,
    }
}

/// Which number of a queue's rows a name is.
pub fn item_named(stack: &Stack, spot: Spot, name: Name<'_>) -> Result<Option<u8>, AllocError>
    ensures { IfOk result
        (λ found. found ≡ item_in (items_at (stack_tree stack.now) spot.place spot.cell) (words_in name.entry)) }
{
    match name {
        Name::One(word) => kept(item_place(items_named(stack, spot), word)),
        _ => Ok(None),
    }
}

/// What rows carry, if anything.
pub(crate) fn load_of(items: Option<&Items>) -> Option<Load>
    ensures { option_map load_tree result ≡ option_map (λ m. m.1) (items_shown items.entry).message }
{
    match items?.message {
        Some(message) => Some(Load::of(message.carried)),
        None => None,
    }
}

/// What the rows of a queue carry, if anything.
pub fn load_at(stack: &Stack, spot: Spot) -> Option<Load>
    ensures { option_map load_tree result ≡
        option_map (λ m. m.1) (items_at (stack_tree stack.now) spot.place spot.cell).message }
{
    load_of(items_named(stack, spot))
}

/// The place of a cell by its name.
fn cell_place(word: &[u8], cells: &[Cell]) -> Option<usize>
    ensures { result ≡ position (λ (c : Cell). bytes_eq word.now c.name) cells.now }
{
    cells.iter().position(|cell| word == cell.name.bytes())
}

/// The number of a cell, by its name.
#[tactic(auto, using(crate::proofs::Places::cell_found))]
fn cell_number(word: &[u8], cells: &[Cell]) -> Option<usize>
    ensures { result ≡ named.place_of word.now (map (λ (c : CellTree). c.name) (map cell_tree cells.now)) }
{
    cell_place(word, cells)
}

/// The number of a cell of a layer, by its name.
fn cell_called(layer: Option<&TypedLayer>, word: &[u8]) -> Option<usize>
    ensures { result ≡ named.place_of word.now (map (λ (c : CellTree). c.name) (layer_shown layer.entry).cells) }
{
    match layer {
        Some(layer) => cell_number(word, layer.cells.as_slice()),
        None => None,
    }
}

/// A cell, by its place and its name.
fn cell_by(stack: &Stack, place: &[u8], word: &[u8]) -> Result<Option<Spot>, AllocError>
    ensures { IfOk result
        (λ found. option_map pair_of found ≡ named.cell_named (stack_tree stack.now) (place.now ∷ word.now ∷ [])) }
{
    let Some(number) = below(usize::from(stack.places()), place) else {
        return Ok(None);
    };
    match kept(cell_called(layer_at(stack, number), word))? {
        Some(cell) => Ok(Some(Spot {
            place: number as u8,
            cell,
        })),
        None => Ok(None),
    }
}

/// A cell, by a name.
pub fn cell_named(stack: &Stack, name: Name<'_>) -> Result<Option<Spot>, AllocError>
    ensures { IfOk result
        (λ found. option_map pair_of found ≡ named.cell_named (stack_tree stack.now) (words_in name.entry)) }
{
    match name {
        Name::Two(place, word) => cell_by(stack, place, word),
        _ => Ok(None),
    }
}

/// The place of a declared header by its name.
fn header_place(word: &[u8], headers: &[HeaderForm]) -> Option<usize>
    ensures is { result ≡ position (λ (h : HeaderForm). bytes_eq word.now h.name) headers.now }
    ensures within { IfSome result (λ place. place < length headers.now) }
{
    headers
        .iter()
        .position(|header| word == header.name.bytes())
}

/// The tag of a header, `none` or a declared one, by its name.
#[tactic(auto, using(crate::proofs::Rules::of_header_tag))]
fn header_tag(word: &[u8], headers: &[HeaderForm]) -> Option<usize>
    ensures { result ≡ named.place_of word.now
        (map (λ (h : HeaderTree). h.name) (header_none ∷ map header_tree headers.now)) }
{
    if word == b"none".as_slice() {
        return Some(0);
    }
    match header_place(word, headers) {
        Some(place) => Some(place + 1),
        None => None,
    }
}

/// The tag of a header of a layer, by its name.
fn header_called(layer: Option<&TypedLayer>, word: &[u8]) -> Option<usize>
    ensures { result ≡ named.place_of word.now
        (map (λ (h : HeaderTree). h.name) (header_none ∷ (layer_shown layer.entry).headers)) }
{
    match layer {
        Some(layer) => header_tag(word, layer.headers.as_slice()),
        None => header_tag(word, &[]),
    }
}

/// Whether a layer has this name.
fn is_called(layer: Option<&TypedLayer>, word: &[u8]) -> bool
    ensures { result ≡ bytes_eq word.now (layer_shown layer.entry).name }
{
    match layer {
        Some(layer) => word == layer.name.bytes(),
        None => word == b"".as_slice(),
    }
}

/// The tag of a header of a layer, by the names of both.
pub fn tag_named(layer: Option<&TypedLayer>, name: Name<'_>) -> Result<Option<u8>, AllocError>
    ensures { IfOk result (λ tag. tag ≡ operation.tag_named (layer_shown layer.entry) (words_in name.entry)) }
{
    match name {
        Name::Two(word, header) => {
            if is_called(layer, word) {
                kept(header_called(layer, header))
            } else {
                Ok(None)
            }
        }
        _ => Ok(None),
    }
}

/// How many fields a declared header of a layer has.
fn declared_fields(layer: Option<&TypedLayer>, number: usize) -> u8
    ensures { result ≡ option_map_or (λ h. h.fields) (slice_get (layer_shown layer.entry).headers number) 0 }
{
    let Some(layer) = layer else { return 0 };
    match layer.headers.get(number) {
        Some(header) => header.fields,
        None => 0,
    }
}

/// How many fields a header of a layer has.
#[tactic(auto, using(crate::proofs::Places::fields_after))]
pub fn fields_of(layer: Option<&TypedLayer>, tag: u8) -> u8
    ensures { result ≡ fuse.fields_of (layer_shown layer.entry) tag }
{
    if tag > 0 {
        declared_fields(layer, usize::from(tag) - 1)
    } else {
        0
    }
}
