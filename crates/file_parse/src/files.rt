//! Readers of layers, of the places of a stack, and of whole files.
ghost use Rattle.std.specs.Prelude.{◌≡◌, ◌<◌, ◌≤◌, [], ◌∷◌, ◌++◌, length, map, IfOk};
ghost use Rattle.layer_ast.specs.Print as print;
ghost use Rattle.layer_ast.specs.View.{layer_tree, given_tree, place_tree};
ghost use Rattle.grammar_laws.specs.Machine.{a_layer, layers as more_layers, a_given, some_given as one_or_no_given};
ghost use Rattle.grammar_laws.specs.Machine.{a_place, places as more_places};
ghost use Rattle.file_parse.specs.Parts.{ParsesGiven};
ghost use Rattle.file_parse.specs.Reading.{Parses, ParsesAll, ParsesAllFlat, ParsesFile, ParsesStack, SeesPart};

use crate::declarations::declarations;
use crate::handlers::handlers;
use crate::readers::{Fault, close, name, number, open, past, read, room_inside, sign};
use layer_ast::{File, Given, Layer, Lexed, Name, Place, Token};
use layer_words::{Sign, Word};
use std::alloc::Global;

/// How many brackets may be open at once.
pub const DEEPEST: u32 = 100;

/// Reads layers as long as one begins.
fn layers(alloc: Global, room: u32, tokens: &[Lexed]) -> Result<(Vec<Layer>, &[Lexed]), Fault>
    ensures { Parses print.layers (λ v. map layer_tree v.items) more_layers room tokens.now result }
{
    let mut all = Vec::new(alloc);
    let mut rest = tokens;
    while begins_layer(rest) {
        let (next, following) = layer(alloc, room, rest)?;
        all.push(next)?;
        rest = following;
    }
    Ok((all, rest))
}

/// Whether the next token begins a layer.
pub fn begins_layer(tokens: &[Lexed]) -> bool
    ensures { SeesPart more_layers (a_layer ∷ more_layers ∷ []) tokens.now result }
{
    let Some((first, _)) = tokens.split_first() else {
        return false;
    };
    matches!(first.token, Token::Sign(Sign::Layer))
}

/// Reads a layer.
pub fn layer(alloc: Global, room: u32, tokens: &[Lexed]) -> Result<(Layer, &[Lexed]), Fault>
    ensures read { Parses print.layer layer_tree a_layer room tokens.now result }
    ensures shorter { IfOk result (λ r. length r.1.now < length tokens.now) }
{
    let Some((first, rest)) = tokens.split_first() else {
        return Err(Fault::Refused(0));
    };
    match first.token {
        Token::Sign(Sign::Layer) => layer_body(alloc, room, *first, rest),
        _ => Err(Fault::Refused(tokens.len())),
    }
}

/// Reads a layer from after its first word.
#[tactic(auto, using(crate::proofs::Fit::fits_first))]
fn layer_body(
    alloc: Global,
    room: u32,
    first: Lexed,
    tokens: &[Lexed],
) -> Result<(Layer, &[Lexed]), Fault>
    requires { first.token ≡ Token.Sign Sign.Layer }
    ensures read { Parses print.layer layer_tree a_layer room (first ∷ tokens.now) result }
    ensures shorter { IfOk result (λ r. length r.1.now ≤ length tokens.now) }
{
    let (name, rest) = read!(name(tokens));
    let (inside, rest) = read!(open(room, Sign::LeftBrace, rest));
    let (declarations, rest) = read!(declarations(alloc, inside, rest));
    let (handlers, rest) = read!(handlers(alloc, inside, rest), declarations);
    let rest = read!(close(Sign::RightBrace, rest), declarations, handlers);
    let at = first.at;
    Ok((
        Layer {
            at,
            name,
            declarations,
            handlers,
        },
        rest,
    ))
}

/// Reads places as long as one begins, at least one.
fn places(alloc: Global, room: u32, tokens: &[Lexed]) -> Result<(Vec<Place>, &[Lexed]), Fault>
    ensures read { ParsesAll print.places (λ v. map place_tree v.items) (a_place ∷ more_places ∷ []) room tokens.now
        result }
    ensures some { IfOk result (λ r. 0 < length r.0.items) }
{
    let (first, mut rest) = read!(place(alloc, room, tokens));
    let mut all = Vec::new(alloc);
    all.push(first)?;
    while begins_place(rest) {
        let (next, following) = read!(place(alloc, room, rest));
        all.push(next)?;
        rest = following;
    }
    Ok((all, rest))
}

/// Whether the next token begins a place.
fn begins_place(tokens: &[Lexed]) -> bool
    ensures { SeesPart more_places (a_place ∷ more_places ∷ []) tokens.now result }
{
    let Some((first, _)) = tokens.split_first() else {
        return false;
    };
    matches!(first.token, Token::Name(_))
}

fn place(alloc: Global, room: u32, tokens: &[Lexed]) -> Result<(Place, &[Lexed]), Fault>
    ensures read { Parses print.place place_tree a_place room tokens.now result }
    ensures shorter { IfOk result (λ r. length r.1.now < length tokens.now) }
{
    let Some((first, rest)) = tokens.split_first() else {
        return Err(Fault::Refused(0));
    };
    match first.token {
        Token::Name(word) => place_of(alloc, room, word, *first, rest),
        _ => Err(Fault::Refused(tokens.len())),
    }
}

/// Reads a place from after its name.
#[tactic(auto, using(crate::proofs::Fit::fits_first))]
fn place_of(
    alloc: Global,
    room: u32,
    word: Word,
    first: Lexed,
    tokens: &[Lexed],
) -> Result<(Place, &[Lexed]), Fault>
    requires { first.token ≡ Token.Name word }
    ensures read { Parses print.place place_tree a_place room (first ∷ tokens.now) result }
    ensures shorter { IfOk result (λ r. length r.1.now ≤ length tokens.now) }
{
    let (given, rest) = some_given(alloc, room, tokens)?;
    let rest = sign(Sign::Semicolon, rest)?;
    let name = Name { at: first.at, word };
    Ok((Place { name, given }, rest))
}

/// Reads the params that a place gives, where it gives any.
fn some_given(alloc: Global, room: u32, tokens: &[Lexed]) -> Result<(Vec<Given>, &[Lexed]), Fault>
    ensures { Parses print.all_given (λ v. map given_tree v.items) one_or_no_given room tokens.now result }
{
    let Some(rest) = past(Sign::LeftParen, tokens) else {
        return Ok((Vec::new(alloc), tokens));
    };
    let _ = room_inside(room, rest)?;
    let (first, rest) = read!(given(rest));
    let (all, rest) = more_given(alloc, first, rest)?;
    let rest = close(Sign::RightParen, rest)?;
    Ok((all, rest))
}

/// Reads params that a place gives after a first one, each after a comma, as long as there is a comma.
fn more_given(
    alloc: Global,
    first: Given,
    tokens: &[Lexed],
) -> Result<(Vec<Given>, &[Lexed]), Fault>
    ensures { ParsesGiven (λ v. map given_tree v.items) (given_tree first) tokens.now result }
{
    let mut all = Vec::new(alloc);
    all.push(first)?;
    let mut rest = tokens;
    while let Some(following) = past(Sign::Comma, rest) {
        let (next, following) = read!(given(following));
        all.push(next)?;
        rest = following;
    }
    Ok((all, rest))
}

/// Reads a param that a place gives.
fn given(tokens: &[Lexed]) -> Result<(Given, &[Lexed]), Fault>
    ensures { ParsesAllFlat print.given given_tree a_given tokens.now result }
{
    let (name, rest) = read!(name(tokens));
    let rest = sign(Sign::Assign, rest)?;
    let (value, rest) = number(rest)?;
    Ok((Given { name, value }, rest))
}

/// Reads the stack that ends a file, and its places.
pub fn stack(alloc: Global, tokens: &[Lexed]) -> Result<Vec<Place>, Fault>
    ensures { ParsesStack (λ v. map place_tree v.items) tokens.now result }
{
    let rest = sign(Sign::Stack, tokens)?;
    let (inside, rest) = open(DEEPEST, Sign::LeftBrace, rest)?;
    let (places, rest) = places(alloc, inside, rest)?;
    let rest = close(Sign::RightBrace, rest)?;
    if !rest.is_empty() {
        return Err(Fault::Refused(rest.len()));
    }
    Ok(places)
}

/// Reads a whole file, without the layers that the library brings.
pub fn file(alloc: Global, tokens: &[Lexed]) -> Result<File, Fault>
    ensures { ParsesFile tokens.now result }
{
    let library = Vec::new(alloc);
    let (layers, rest) = layers(alloc, DEEPEST, tokens)?;
    let places = stack(alloc, rest)?;
    Ok(File {
        layers,
        places,
        library,
    })
}
