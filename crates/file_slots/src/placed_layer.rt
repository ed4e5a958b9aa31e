//! A layer at its place of a stack, and what its own names stand for there.

ghost use Rattle.std.specs.Prelude.{◌≡◌, ◌≤◌, ◌++◌, ◌∷◌, [], find, length, map, option_map, option_copied, IfOk, OnOk};
ghost use Rattle.std.specs.Prelude.{IfSome, Some};
ghost use Rattle.std.specs.List.{last_or};
ghost use Rattle.std.specs.Option.{option_map_or};
ghost use Rattle.layer_ast.specs.View.{declaration_tree, given_tree, items_tree, layer_tree, size_tree};
ghost use Rattle.fault_mean.specs.Declared as declared;
ghost use Rattle.fault_mean.specs.Declared.{cells_of, declaration_of, headers_of, items_in};
ghost use Rattle.fault_mean.specs.Forms.{row_of};
ghost use Rattle.fault_mean.specs.Places as params;
ghost use Rattle.file_mean.specs.Names as spec;
ghost use Rattle.file_scope.specs.Scope.{scope_of};
ghost use Rattle.typed_layer.specs.View.{blank_headers, carried_tree};
ghost use Rattle.file_laws.specs.Bounds.{HoldsDeclaration};
ghost use Rattle.file_slots.specs.Placed.{AreHeld, AreHeld-prop, HoldDeclarations, placement, words_of};
ghost use Rattle.fault_mean.specs.Limits.{most_cells};
ghost use Rattle.msg_core.specs.Headers.{most_declared};

use crate::declared::{
    cell_words, declared_value, given_among, header_words, item_number, last_sort, rows,
};
use file_scope::{Scope, Words};
use layer_ast::{Declaration, Given, Items, Layer, Name, Size};
use layer_words::{Sort, Word};
use std::alloc::{AllocError, Global};
use typed_layer::{Blank, Carried};

/// A layer at its place, with a table of its cells and one of its headers.
#[derive(Drop)]
pub struct PlacedLayer<'a> {
    scope: Scope<'a>,
    given: &'a [Given],
    blank: Blank,
    cells: Words,
    headers: Words,
    ghost cells_are: { cells ≡ words_of (cells_of (scope_of scope).layer) },
    ghost headers_are: { headers ≡ words_of (headers_of (scope_of scope).layer) },
    ghost few_cells: { length (cells_of (scope_of scope).layer) ≤ most_cells },
    ghost few_headers: { length (headers_of (scope_of scope).layer) ≤ most_declared },
    ghost held: { AreHeld (scope_of scope) given.now blank } by { AreHeld-prop (scope_of scope) given.now blank },
}

impl<'a> PlacedLayer<'a> {
    ghost use Rattle.file_slots.specs.Place.{placed_of};

    /// A layer with its names, at a place that gives these params and has these places above.
    pub fn of(
        alloc: Global,
        layer: &'a Layer,
        own: &'a Words,
        given: &'a [Given],
        blank: Blank,
    ) -> Result<PlacedLayer<'a>, AllocError>
        requires own { own.now ≡ words_of (layer_tree layer.now).declarations }
        requires cells { length (cells_of (layer_tree layer.now)) ≤ most_cells }
        requires headers { length (headers_of (layer_tree layer.now)) ≤ most_declared }
        requires declarations { HoldDeclarations (placement (layer_tree layer.now) given.now blank) }
        ensures { IfOk result (λ place. placed_of place ≡ placement (layer_tree layer.now) given.now blank) }
    {
        let cells = cell_words(alloc, &layer.declarations)?;
        let headers = header_words(alloc, &layer.declarations)?;
        Ok(PlacedLayer {
            scope: Scope::of(alloc, layer, own),
            given,
            blank,
            cells,
            headers,
        })
    }

    /// The declaration of a word.
    pub fn declaration(&self, word: &Word) -> Option<&Declaration>
        ensures is { option_map (λ d. declaration_tree d) (option_copied result) ≡
            declaration_of (placed_of self.now).layer word.now }
        ensures holds { IfSome result (λ d. HoldsDeclaration (placed_of self.now) (declaration_tree d.now)) }
    {
        self.scope.declaration(word)
    }

    /// The value of a param.
    pub fn param(&self, word: &Word) -> Option<u32>
        ensures { result ≡ params.param_value (placed_of self.now).layer (placed_of self.now).given word.now }
    {
        match self.declaration(word) {
            None => None,
            Some(d) => match declared_value(d) {
                None => None,
                Some(value) => Some(given_among(self.given, word).unwrap_or(value)),
            },
        }
    }

    /// The value of a size.
    pub fn size(&self, size: &Size) -> u32
        ensures { result ≡ spec.size_value (placed_of self.now) (size_tree size.now) }
    {
        match size {
            Size::Number { value, .. } => *value,
            Size::Named { name } => self.param(&name.word).unwrap_or(0),
        }
    }

    /// The number of the cell of a name.
    pub fn cell(&self, name: &Name) -> u8
        ensures { result ≡ spec.cell_of (placed_of self.now) name.now }
    {
        match self.cells.position(&name.word) {
            None => 0,
            Some(k) => k as u8,
        }
    }

    /// The tag of the header of a name.
    pub fn tag(&self, name: &Name) -> u8
        ensures is { result ≡ spec.tag_of (placed_of self.now) name.now }
        ensures few { result ≤ most_declared }
    {
        match self.headers.position(&name.word) {
            None => 0,
            Some(k) => k as u8 + 1,
        }
    }

    /// The capacity that a declaration declares; what is no queue has none.
    fn capacity_declared(&self, declaration: &Declaration) -> u8
        requires { HoldsDeclaration (placed_of self.now) (declaration_tree declaration.now) }
        ensures { result ≡ spec.capacity_declared (placed_of self.now) (declaration_tree declaration.now) }
    {
        match declaration {
            Declaration::Queue { capacity, .. } | Declaration::Queues { capacity, .. } => {
                self.size(capacity) as u8
            }
            _ => 0,
        }
    }

    /// The capacity of a queue.
    pub fn capacity(&self, queue: &Name) -> u8
        ensures { result ≡ spec.capacity_of (placed_of self.now) queue.now }
    {
        match self.declaration(&queue.word) {
            None => 0,
            Some(d) => self.capacity_declared(d),
        }
    }

    /// What an item of a sort carries.
    fn carried_as(&self, sort: Sort) -> Option<Carried>
        ensures { option_map carried_tree result ≡ spec.carried_as (placed_of self.now).blank sort }
    {
        match sort {
            Sort::Int => None,
            Sort::Msg => Some(Carried::Whole(self.blank)),
            Sort::Part => Some(Carried::Part),
        }
    }

    /// What rows of these items carry.
    pub fn carried_in(&self, items: &Items) -> Option<Carried>
        ensures { option_map carried_tree result ≡ spec.carried_in
            (placed_of self.now) (items_in (items_tree items.now)) }
    {
        self.carried_as(last_sort(items))
    }

    /// The items of the rows of a queue, if it is one.
    fn row(&self, queue: &Name) -> Option<&Items>
        ensures is { option_map_or (λ items. items_in (items_tree items.now)) result [] ≡
            row_of (placed_of self.now).layer queue.now.word }
        ensures holds { IfSome result (λ items. length (items_in (items_tree items.now)) ≤ 5) }
    {
        match self.declaration(&queue.word) {
            None => None,
            Some(d) => rows(d),
        }
    }

    /// What the rows of a queue carry.
    pub fn carried(&self, queue: &Name) -> Option<Carried>
        ensures { option_map carried_tree result ≡ spec.carried_in
            (placed_of self.now) (row_of (placed_of self.now).layer queue.now.word) }
    {
        match self.row(queue) {
            None => None,
            Some(items) => self.carried_in(items),
        }
    }

    /// The place of an item among those of the rows of a queue.
    pub fn item(&self, queue: &Name, label: &Name) -> u8
        ensures { result ≡ spec.item_number (row_of (placed_of self.now).layer queue.now.word) label.now }
    {
        match self.row(queue) {
            None => 0,
            Some(items) => item_number(items, label),
        }
    }
}
