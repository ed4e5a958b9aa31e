//! What declarations declare, and what a place gives.

ghost use Rattle.std.specs.Prelude.{◌≡◌, ◌≤◌, ◌∷◌, [], find, bytes_eq, length, map, option_map, IfOk, Some, None};
ghost use Rattle.std.specs.List.{filter, last_or, position};
ghost use Rattle.std.specs.Option.{option_map_or};
ghost use Rattle.layer_ast.specs.View.{declaration_tree, item_tree, items_tree, names_tree};
ghost use Rattle.fault_mean.specs.Declared as declared;
ghost use Rattle.fault_mean.specs.Declared.{items_in, names_in};
ghost use Rattle.fault_mean.specs.Places as params;
ghost use Rattle.fault_mean.specs.Forms.{items_of};
ghost use Rattle.file_mean.specs.Names as spec;
ghost use Rattle.file_slots.specs.Placed.{words_of};

use file_scope::{Words, declared_name, is_same};
use layer_ast::{Declaration, Given, Item, Items, Name, Names};
use layer_words::{Sort, Word};
use std::alloc::{AllocError, Global};

/// Whether a declaration declares a cell.
pub fn is_cell(declaration: &Declaration) -> bool
    ensures { result ≡ declared.is_cell (declaration_tree declaration.now) }
{
    match declaration {
        Declaration::Param { .. } | Declaration::Header { .. } => false,
        Declaration::Int { .. } | Declaration::Queue { .. } | Declaration::Queues { .. } => true,
    }
}

/// Whether a declaration declares a header.
pub fn is_header(declaration: &Declaration) -> bool
    ensures { result ≡ declared.is_header (declaration_tree declaration.now) }
{
    matches!(declaration, Declaration::Header { .. })
}

/// The words of the cells among these, in order.
#[tactic(auto, using(crate::proofs::Places::words_taken, crate::proofs::Places::words_passed))]
pub fn cell_words(alloc: Global, declarations: &[Declaration]) -> Result<Words, AllocError>
    ensures { IfOk result
        (λ words. words ≡ words_of (filter declared.is_cell (map declaration_tree declarations.now))) }
{
    let mut words = Words::new(alloc);
    for declaration in declarations {
        if is_cell(declaration) {
            words.push(&declared_name(declaration).word)?;
        }
    }
    Ok(words)
}

/// The words of the headers among these, in order.
#[tactic(auto, using(crate::proofs::Places::words_taken, crate::proofs::Places::words_passed))]
pub fn header_words(alloc: Global, declarations: &[Declaration]) -> Result<Words, AllocError>
    ensures { IfOk result
        (λ words. words ≡ words_of (filter declared.is_header (map declaration_tree declarations.now))) }
{
    let mut words = Words::new(alloc);
    for declaration in declarations {
        if is_header(declaration) {
            words.push(&declared_name(declaration).word)?;
        }
    }
    Ok(words)
}

/// The value that is given to a param.
pub fn given_among(given: &[Given], word: &Word) -> Option<u32>
    ensures { result ≡ option_map (λ g. g.value) (find (λ g. bytes_eq g.name.word word.now) given.now) }
{
    given
        .iter()
        .find(|g| is_same(&g.name.word, word))
        .map(|g| g.value)
}

/// The value that a declaration declares for a param.
pub fn declared_value(declaration: &Declaration) -> Option<u32>
    ensures { result ≡ params.declared_value (declaration_tree declaration.now) }
{
    match declaration {
        Declaration::Param { value, .. } => Some(*value),
        _ => None,
    }
}

/// The items of the rows that a declaration declares, if it declares rows.
pub fn rows(declaration: &Declaration) -> Option<&Items>
    ensures { option_map_or (λ items. items_in (items_tree items.now)) result [] ≡
        items_of (declaration_tree declaration.now) }
{
    match declaration {
        Declaration::Queue { items, .. } | Declaration::Queues { items, .. } => Some(items),
        _ => None,
    }
}

/// The sort of the last item of a row.
#[tactic(auto, using(crate::proofs::Places::last_sort))]
pub fn last_sort(items: &Items) -> Sort
    ensures { Some result ≡ option_map (λ i. i.sort) (last_or None (items_in (items_tree items.now))) }
{
    match items.rest.last() {
        None => items.first.sort,
        Some(item) => item.sort,
    }
}

/// Where an item of this name is first among some.
fn place_among(items: &[Item], label: &Name) -> Option<usize>
    ensures { result ≡ position (λ i. bytes_eq i.name.word label.now.word) items.now }
{
    items
        .iter()
        .position(|item| is_same(&item.name.word, &label.word))
}

/// The place of an item among those of its row.
#[tactic(auto, using(crate::proofs::Places::item_there, crate::proofs::Places::item_small))]
pub fn item_number(items: &Items, label: &Name) -> u8
    requires { length (items_in (items_tree items.now)) ≤ 5 }
    ensures { result ≡ spec.item_number (items_in (items_tree items.now)) label.now }
{
    if is_same(&items.first.name.word, &label.word) {
        return 0;
    }
    match place_among(&items.rest, label) {
        None => 0,
        Some(k) => k as u8 + 1,
    }
}

/// How many names a list has that may be missing.
pub fn field_count(fields: &Option<Names>) -> usize
    ensures { result ≡ length (names_in (option_map names_tree fields.now)) }
{
    match fields {
        None => 0,
        Some(fields) => fields.rest.len() + 1,
    }
}
