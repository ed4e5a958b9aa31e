//! The cells and the headers of a layer at its place.

ghost use Rattle.std.specs.Prelude.{◌≡◌, ◌≤◌, ◌++◌, filter_map, is_some, length, map, option_map, option_to_list, IfOk};
ghost use Rattle.std.specs.Prelude.{OnOk, Some, None};
ghost use Rattle.std.specs.List.{AllByRecursion, last_or};
ghost use Rattle.std.specs.Option.{option_map_or, option_zip};
ghost use Rattle.layer_ast.specs.View as written;
ghost use Rattle.fault_mean.specs.Declared.{items_in};
ghost use Rattle.fault_mean.specs.Forms.{labels_of};
ghost use Rattle.file_mean.specs.Layers as spec;
ghost use Rattle.file_mean.specs.Names.{message_among, own_names};
ghost use Rattle.file_mean.specs.Values.{number_of};
ghost use Rattle.layer_mean.specs.Tree as tree;
ghost use Rattle.typed_layer.specs.View.{carried_tree, cell_tree, expression_tree, header_tree, items_tree};
ghost use Rattle.file_laws.specs.Bounds.{HoldsDeclaration};
ghost use Rattle.file_slots.specs.Place.{placed_of};
ghost use Rattle.msg_core.specs.Headers.{most_fields};

use file_scope::items;
use file_slots::{PlacedLayer, VisibleNames, field_count, number, numbers_of};
use layer_ast as ast;
use layer_ast::{Declaration, Ending};
use layer_words::Word;
use std::alloc::{AllocError, Global};
use typed_layer::{Carried, Cell, Expression, Form, HeaderForm, ItemMessage, Items};

/// The words of some items.
fn words(alloc: Global, items: &[ast::Item]) -> Result<Vec<Word>, AllocError>
    ensures { IfOk result (λ words. words.items ≡ map (λ i. i.name.word) (map written.item_tree items.now)) }
{
    let mut words = Vec::new(alloc);
    for item in items {
        words.push(item.name.word)?;
    }
    Ok(words)
}

/// The word of the last item of a row.
fn last_word(row: &ast::Items) -> Word
    ensures { Some result ≡ last_or None (map (λ i. i.name.word) (items_in (written.items_tree row.now))) }
{
    match row.rest.last() {
        None => row.first.name.word,
        Some(item) => item.name.word,
    }
}

/// The last item of a row as its message, where it carries one.
fn item_message(row: &ast::Items, carried: Option<Carried>) -> Option<ItemMessage>
    ensures { option_map (λ m. (m.name, carried_tree m.carried)) result
        ≡ option_zip (message_among (is_some (option_map carried_tree carried))
        (map (λ i. i.name.word) (items_in (written.items_tree row.now)))) (option_map carried_tree carried) }
{
    match carried {
        None => None,
        Some(carried) => Some(ItemMessage {
            name: last_word(row),
            carried,
        }),
    }
}

/// The items of a queue's rows.
fn row_items(alloc: Global, place: &PlacedLayer, row: &ast::Items) -> Result<Items, AllocError>
    ensures { IfOk result
        (λ x. items_tree x ≡ spec.row_items (placed_of place.now) (items_in (written.items_tree row.now))) }
{
    let carried = place.carried_in(row);
    let all = items(alloc, row)?;
    let count = numbers_of(carried.is_some(), all.len());
    let numbers = words(alloc, &all[..count])?;
    Ok(Items {
        numbers,
        message: item_message(row, carried),
    })
}

/// The initial value of a cell of numbers: one that isn't written is 0.
fn initial_value(
    alloc: Global,
    place: &PlacedLayer,
    initial: &Option<ast::Expression>,
) -> Result<Expression, AllocError>
    ensures { IfOk result (λ x. expression_tree x
        ≡ option_map_or (number_of (own_names (placed_of place.now))) (option_map written.expression_tree initial.now)
        (tree.number 0)) }
{
    match initial {
        None => Ok(Expression::Number(0)),
        Some(e) => {
            let names = VisibleNames::own(alloc, place);
            let initial = number(alloc, &names, e);
            drop(names);
            initial
        }
    }
}

/// The cell that a declaration declares, if it does.
fn cell(
    alloc: Global,
    place: &PlacedLayer,
    declaration: &Declaration,
) -> Result<Option<Cell>, AllocError>
    requires { HoldsDeclaration (placed_of place.now) (written.declaration_tree declaration.now) }
    ensures { IfOk result
        (λ c. option_map cell_tree c ≡ spec.cell_in (placed_of place.now) (written.declaration_tree declaration.now)) }
{
    match declaration {
        Declaration::Int {
            name,
            shape,
            initial,
            ..
        } => {
            let initial = initial_value(alloc, place, initial)?;
            Ok(Some(Cell {
                name: name.word,
                form: Form::Numbers {
                    shape: *shape,
                    initial,
                },
            }))
        }
        Declaration::Queue {
            name,
            capacity,
            items,
            ..
        } => {
            let capacity = place.size(capacity) as u8;
            let items = row_items(alloc, place, items)?;
            Ok(Some(Cell {
                name: name.word,
                form: Form::Queue { capacity, items },
            }))
        }
        Declaration::Queues {
            name,
            capacity,
            items,
            ..
        } => {
            let capacity = place.size(capacity) as u8;
            let items = row_items(alloc, place, items)?;
            Ok(Some(Cell {
                name: name.word,
                form: Form::Queues { capacity, items },
            }))
        }
        _ => Ok(None),
    }
}

/// Adds a thing that is there.
fn push_some<T: Drop>(all: &mut Vec<T>, item: Option<T>) -> Result<(), AllocError>
    ensures { OnOk result (all.new.items ≡ all.old.items ++ option_to_list item) }
{
    if let Some(item) = item {
        all.push(item)?;
    }
    Ok(())
}

/// The cells among declarations, in order.
pub fn cells(
    alloc: Global,
    place: &PlacedLayer,
    declarations: &[Declaration],
) -> Result<Vec<Cell>, AllocError>
    requires { AllByRecursion (HoldsDeclaration (placed_of place.now)) (map written.declaration_tree declarations.now) }
    ensures { IfOk result
        (λ all. map cell_tree all.items ≡
        filter_map (spec.cell_in (placed_of place.now)) (map written.declaration_tree declarations.now)) }
{
    let mut all = Vec::new(alloc);
    for declaration in declarations {
        let cell = cell(alloc, place, declaration)?;
        push_some(&mut all, cell)?;
    }
    Ok(all)
}

/// The header that a declaration declares, if it does.
fn header(declaration: &Declaration) -> Option<HeaderForm>
    requires { length (labels_of (written.declaration_tree declaration.now)) ≤ most_fields }
    ensures { option_map header_tree result ≡ spec.header_in (written.declaration_tree declaration.now) }
{
    match declaration {
        Declaration::Header {
            name,
            fields,
            ending,
            ..
        } => Some(HeaderForm {
            name: name.word,
            fields: field_count(fields) as u8,
            ends: matches!(ending, Ending::Ends),
        }),
        _ => None,
    }
}

/// The headers among declarations, in order.
pub fn headers(
    alloc: Global,
    _place: &PlacedLayer,
    declarations: &[Declaration],
) -> Result<Vec<HeaderForm>, AllocError>
    requires { AllByRecursion (HoldsDeclaration (placed_of _place.now))
        (map written.declaration_tree declarations.now) }
    ensures { IfOk result
        (λ all. map header_tree all.items ≡ filter_map spec.header_in (map written.declaration_tree declarations.now)) }
{
    let mut all = Vec::new(alloc);
    for declaration in declarations {
        push_some(&mut all, header(declaration))?;
    }
    Ok(all)
}
