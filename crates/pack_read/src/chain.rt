//! Messages with their known headers.

ghost use Rattle.std.specs.Prelude.{◌≡◌, ◌∷◌, IfOk};
ghost use Rattle.pack_mean.specs.Operation as operation;
ghost use Rattle.trace_core.specs.Links.{IsChain, MakesChain, chain_in, chains};
ghost use Rattle.pack_words.specs.Reading.{left};
ghost use Rattle.pack_words.specs.View.{layers_in, named_in};
ghost use Rattle.pack_read.specs.Operations.{ReadsChain, ReadsChained, header_at};

use crate::atoms::core;
use crate::header::{Header, read_header};
use pack_words::{LineError, Scope, Text};
use std::alloc::AllocError;
use trace_core::{Chained, Link, Links};

/// A place, as traces keep it: of eight bits.
fn kept_place(place: u32) -> Result<u8, AllocError>
    ensures { IfOk result (λ kept. kept ≡ place) }
{
    if place > 255 {
        return Err(AllocError);
    }
    Ok(place as u8)
}

/// A header before a chain.
fn put(links: &mut Links, place: u8, header: Header, rest: u32) -> Result<u32, AllocError>
    requires { IsChain (chains links.old) rest }
    ensures { MakesChain links.old links.new (header_at place header ∷ chain_in (chains links.old) rest) result }
{
    links.push(Link {
        place,
        tag: header.tag,
        fields: header.fields,
        rest,
    })
}

/// At most `most` headers of places from `place` on, each after a slash; the number of their chain.
fn chain_after(
    text: &mut Text<'_>,
    scope: &Scope<'_>,
    links: &mut Links,
    place: u32,
    most: u32,
) -> Result<u32, LineError>
    ensures { ReadsChain (operation.links_after (layers_in scope.now) (named_in scope.now) place most
        (left text.old)) links.old links.new (left text.new) result }
{
    if most == 0 {
        return Ok(0);
    }
    if !text.passes(b'/') {
        return Ok(0);
    }
    let place = kept_place(place)?;
    let first = read_header(text, scope, place)?;
    let rest = chain_after(text, scope, links, u32::from(place) + 1, most - 1)?;
    let chain = put(links, place, first, rest)?;
    Ok(chain)
}

/// Headers of places from one on, with slashes between; the number of their chain.
#[tactic(auto, using(crate::proofs::Chaining::some_none, crate::proofs::Chaining::some_no_rest))]
fn some_chain(
    text: &mut Text<'_>,
    scope: &Scope<'_>,
    links: &mut Links,
    place: u32,
) -> Result<u32, LineError>
    ensures { ReadsChain (operation.some_links (layers_in scope.now) (named_in scope.now) place (left text.old))
        links.old links.new (left text.new) result }
{
    let place = kept_place(place)?;
    let first = read_header(text, scope, place)?;
    let most = u32::from(scope.stack.places());
    let rest = chain_after(text, scope, links, u32::from(place) + 1, most)?;
    let chain = put(links, place, first, rest)?;
    Ok(chain)
}

/// The headers after a message, which may be missing; the number of their chain.
#[tactic(auto, using(crate::proofs::Chaining::after_space))]
pub(crate) fn chain(
    text: &mut Text<'_>,
    scope: &Scope<'_>,
    links: &mut Links,
    place: u32,
) -> Result<u32, LineError>
    ensures { ReadsChain (operation.a_chain (layers_in scope.now) (named_in scope.now) place (left text.old))
        links.old links.new (left text.new) result }
{
    if text.passes(b' ') {
        some_chain(text, scope, links, place)
    } else {
        Ok(0)
    }
}

/// A message, with its known headers after it.
pub(crate) fn chained(
    text: &mut Text<'_>,
    scope: &Scope<'_>,
    links: &mut Links,
    place: u32,
) -> Result<Chained, LineError>
    ensures { ReadsChained (operation.a_chained (layers_in scope.now) (named_in scope.now) place (left text.old))
        links.old links.new (left text.new) result }
{
    let core = core(text, scope)?;
    let chain = chain(text, scope, links, place)?;
    Ok(Chained { chain, core })
}
