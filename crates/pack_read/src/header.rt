//! Known headers.

ghost use Rattle.std.specs.Prelude.{◌≡◌, ◌∷◌, ◌++◌, [], IfOk, map, replicate};
ghost use Rattle.bypass_mean.specs.Text.{layer_of};
ghost use Rattle.pack_mean.specs.Operation as operation;
ghost use Rattle.pack_mean.specs.Reader as reader;
ghost use Rattle.trace_core.specs.View.{atom_tree};
ghost use Rattle.pack_words.specs.Names.{words_in};
ghost use Rattle.pack_words.specs.Reading.{left};
ghost use Rattle.pack_words.specs.View.{layers_in, named_in};
ghost use Rattle.pack_read.specs.Operations.{TagIs, TakesAs, TakesAtoms, header_at};

use crate::atoms::atom;
use pack_words::{LineError, Name, Scope, Text, fields_of, layer_at, tag_named};
use std::alloc::AllocError;
use trace_core::{Atom, Atoms};

/// The most fields of a header.
pub(crate) const MOST_FIELDS: u32 = msg_core::MOST_FIELDS as u32;

/// A header of a layer.
#[derive(Clone, Copy)]
pub(crate) struct Header {
    pub(crate) tag: u8,
    pub(crate) fields: Atoms,
}

/// One more field, where there is room for it.
fn with_field(fields: Atoms, field: Atom) -> Result<Atoms, AllocError>
    ensures { IfOk result (λ all. all ≡ fields ++ field ∷ []) }
{
    if fields.len() >= MOST_FIELDS {
        return Err(AllocError);
    }
    let mut fields = fields;
    fields.push(field);
    Ok(fields)
}

/// `count` more fields, each after a comma.
#[tactic(auto, using(crate::proofs::OperationRules::of_more_fields))]
fn more_fields(
    text: &mut Text<'_>,
    scope: &Scope<'_>,
    _place: u8,
    most: u8,
    fields: Atoms,
) -> Result<Atoms, LineError>
    ensures { TakesAtoms (reader.more_of (operation.an_atom (named_in scope.now)) (replicate most _place)
        (left text.old)) fields result (left text.new) }
{
    if most == 0 {
        return Ok(fields);
    }
    text.the(b",")?;
    let field = atom(text, scope)?;
    let fields = with_field(fields, field)?;
    more_fields(text, scope, _place, most - 1, fields)
}

/// `count` fields, with commas between.
#[tactic(auto, using(crate::proofs::Fields::fields_after, crate::proofs::Fields::no_first))]
pub(crate) fn fields(
    text: &mut Text<'_>,
    scope: &Scope<'_>,
    place: u8,
    count: u8,
) -> Result<Atoms, LineError>
    ensures { TakesAs (map atom_tree) (reader.each_of (operation.an_atom (named_in scope.now))
        (replicate count place) (left text.old)) result (left text.new) }
{
    if count == 0 {
        return Ok(Atoms::new());
    }
    let first = atom(text, scope)?;
    let fields = with_field(Atoms::new(), first)?;
    more_fields(text, scope, place, count - 1, fields)
}

/// The tag of a header of the layer at a place, by its name.
fn tag_at(scope: &Scope<'_>, place: u8, name: Name<'_>) -> Result<u8, LineError>
    ensures { TagIs (operation.tag_named (layer_of (layers_in scope.now) place) (words_in name.entry)) result }
{
    match tag_named(layer_at(scope.stack, u32::from(place)), name)? {
        Some(tag) => Ok(tag),
        None => Err(LineError::Form),
    }
}

/// A header of the layer at a place.
pub(crate) fn read_header(
    text: &mut Text<'_>,
    scope: &Scope<'_>,
    place: u8,
) -> Result<Header, LineError>
    ensures { TakesAs (header_at place) (operation.a_link (layers_in scope.now) (named_in scope.now) place
        (left text.old)) result (left text.new) }
{
    let name = text.name();
    let tag = tag_at(scope, place, name)?;
    text.the(b"(")?;
    let fields = fields(
        text,
        scope,
        place,
        fields_of(layer_at(scope.stack, u32::from(place)), tag),
    )?;
    text.the(b")")?;
    Ok(Header { tag, fields })
}
