//! What declarations declare.

ghost use Rattle.std.specs.Prelude.{◌≡◌, bytes_eq};
ghost use Rattle.std.specs.List.{list_any};
ghost use Rattle.layer_ast.specs.View.{declaration_tree, items_tree};
ghost use Rattle.fault_mean.specs.Declared as spec;
ghost use Rattle.fault_mean.specs.Forms.{items_of};
ghost use Rattle.fault_mean.specs.NameFaults.{same_word};

use layer_ast::{Declaration, Item, Items, Name};
use layer_words::Word;

/// Whether two words are the same.
pub fn is_same(a: &Word, b: &Word) -> bool
    ensures { result ≡ bytes_eq a.now b.now }
{
    a.bytes() == b.bytes()
}

/// The name that a declaration declares.
pub fn declared_name(declaration: &Declaration) -> &Name
    ensures { result.now ≡ spec.declared_name (declaration_tree declaration.now) }
{
    match declaration {
        Declaration::Param { name, .. }
        | Declaration::Int { name, .. }
        | Declaration::Queue { name, .. }
        | Declaration::Queues { name, .. }
        | Declaration::Header { name, .. } => name,
    }
}

/// Whether one of these items has this name.
fn is_among(items: &[Item], label: &Name) -> bool
    ensures { result ≡ list_any (λ i. same_word i.name label.now) items.now }
{
    items
        .iter()
        .any(|item| is_same(&item.name.word, &label.word))
}

/// Whether one of the items of a row has this name.
#[tactic(auto, using(crate::proofs::Lists::any_map))]
fn is_item(items: &Items, label: &Name) -> bool
    ensures { result ≡ list_any (λ i. same_word i.name label.now) (spec.items_in (items_tree items.now)) }
{
    is_same(&items.first.name.word, &label.word) || is_among(&items.rest, label)
}

/// Whether the rows that a declaration declares have an item of this name.
pub fn has_item(declaration: &Declaration, label: &Name) -> bool
    ensures { result ≡ list_any (λ i. same_word i.name label.now) (items_of (declaration_tree declaration.now)) }
{
    match declaration {
        Declaration::Queue { items, .. } | Declaration::Queues { items, .. } => is_item(
            items, label,
        ),
        _ => false,
    }
}
