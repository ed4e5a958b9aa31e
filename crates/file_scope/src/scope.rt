//! Which names are visible.

ghost use Rattle.std.specs.Prelude.{◌≡◌, ◌∷◌, [], find, map, option_map, length, slice_get, take, OnOk, option_copied};
ghost use Rattle.std.specs.Prelude.{bytes_eq};
ghost use Rattle.fault_mean.specs.Declared.{declaration_of};
ghost use Rattle.fault_mean.specs.Scope as names;
ghost use Rattle.layer_ast.specs.View.{declaration_tree, layer_tree};
ghost use Rattle.file_scope.specs.Words.{own_words};

use crate::words::Words;
use layer_ast::{Declaration, Layer, Name};
use layer_words::{Sort, Word};
use std::alloc::{AllocError, Global};

/// A local name of a handler.
#[derive(Clone, Copy)]
pub struct Local {
    pub name: Name,
    pub sort: Sort,
}

/// The names that are visible at a place of a layer: its own, and locals.
#[derive(Drop)]
pub struct Scope<'a> {
    layer: &'a Layer,
    own: &'a Words,
    locals: Vec<Local>,
    /// The words of the locals.
    words: Words,
    ghost own_is: { own.now ≡ own_words (layer_tree layer.now) },
    ghost words_are: { words ≡ map (λ l. l.name.word) locals.items },
}

/// The sort of a local by its place.
#[tactic(auto, using(crate::proofs::Lists::there, crate::proofs::Lists::past))]
fn sort_at(locals: &Vec<Local>, place: usize) -> Option<Sort>
    ensures { result ≡ option_map (λ l. l.sort) (slice_get locals.now.items place) }
{
    if place < locals.len() {
        Some(locals[place].sort)
    } else {
        None
    }
}

/// A declaration by its place.
#[tactic(auto, using(crate::proofs::Lists::there, crate::proofs::Lists::past))]
fn at_place(declarations: &Vec<Declaration>, place: usize) -> Option<&Declaration>
    ensures { option_copied result ≡ slice_get declarations.now.items place }
{
    if place < declarations.len() {
        Some(&declarations[place])
    } else {
        None
    }
}

impl<'a> Scope<'a> {
    ghost use Rattle.file_scope.specs.Scope.{local_of, locals_of, scope_of};

    /// A layer's own names alone.
    pub fn of(alloc: Global, layer: &'a Layer, own: &'a Words) -> Scope<'a>
        requires { own.now ≡ own_words (layer_tree layer.now) }
        ensures { scope_of result ≡ names.layer_scope (layer_tree layer.now) }
    {
        Scope {
            layer,
            own,
            locals: Vec::new(alloc),
            words: Words::new(alloc),
        }
    }

    /// The declaration of a word.
    #[tactic(auto, using(crate::proofs::Scopes::declared_at, crate::proofs::Scopes::declared_nowhere))]
    pub fn declaration(&self, word: &Word) -> Option<&Declaration>
        ensures { option_map (λ d. declaration_tree d) (option_copied result) ≡
            declaration_of (layer_tree self.now.layer.now) word.now }
    {
        match self.own.position(word) {
            None => None,
            Some(k) => at_place(&self.layer.declarations, k),
        }
    }

    /// Whether a word is visible.
    #[tactic(auto, using(crate::proofs::Scopes::visible_own, crate::proofs::Scopes::visible_local))]
    pub fn is_visible(&self, word: &Word) -> bool
        ensures { result ≡ names.is_visible (scope_of self.now) word.now }
    {
        match self.own.position(word) {
            Some(_) => true,
            None => self.words.position(word).is_some(),
        }
    }

    /// The sort of the local that has this word as its name, if there is one; of the first, if there are several.
    #[tactic(auto, using(crate::proofs::Scopes::local_at, crate::proofs::Scopes::local_nowhere))]
    pub fn local(&self, word: &Word) -> Option<Sort>
        ensures { result ≡ option_map (λ l. l.sort)
            (find (λ l. bytes_eq l.name.word word.now) (scope_of self.now).locals) }
    {
        match self.words.position(word) {
            None => None,
            Some(k) => sort_at(&self.locals, k),
        }
    }

    /// How many locals are visible.
    pub fn len(&self) -> usize
        ensures { result ≡ length (scope_of self.now).locals }
    {
        self.locals.len()
    }

    /// Leaves a block: the first `outer` locals stay visible.
    pub fn leave(&mut self, outer: usize)
        ensures { scope_of self.new ≡ record (scope_of self.old) { locals = take outer (scope_of self.old).locals } }
    {
        self.locals.truncate(outer);
        self.words.truncate(outer);
    }

    /// Makes a local visible.
    pub fn push(&mut self, local: Local) -> Result<(), AllocError>
        ensures { OnOk result (scope_of self.new ≡ names.with_locals (scope_of self.old) (local_of local ∷ [])) }
    {
        self.locals.reserve(1)?;
        self.words.push(&local.name.word)?;
        self.locals.push(local)?;
        Ok(())
    }

    /// Makes locals visible.
    #[tactic(auto, using(crate::proofs::Standing::no_locals))]
    pub fn extend(&mut self, locals: &[Local]) -> Result<(), AllocError>
        ensures { OnOk result (scope_of self.new ≡ names.with_locals (scope_of self.old) (locals_of locals.now)) }
    {
        for local in locals {
            self.push(*local)?;
        }
        Ok(())
    }
}
