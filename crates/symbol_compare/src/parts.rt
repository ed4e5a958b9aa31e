//! The parts of a trace's expressions, and the forms that are made of their values.

ghost use Rattle.std.specs.Prelude.{◌≡◌};
ghost use Rattle.symbol_compare.specs.Parts.{form_of, parts_of, seen_in, sort_of};

use crate::counts::{Counts, count_of};
use crate::form::{MessageForm, NumberForm, Seen, ValueForm};
use crate::sort::Sort;
use msg_core::Fields;
use trace_core::Node;

/// Whether a node is an atom or a core.
pub(crate) fn sort_of(node: Node) -> Sort
    ensures { result ≡ sort_of node }
{
    match node {
        Node::Atom(atom) => Sort::Number(atom),
        Node::Core(core) => Sort::Message(core),
        _ => Sort::Parts,
    }
}

/// The parts of a node.
pub(crate) fn parts_of(node: Node) -> Fields
    ensures { result ≡ parts_of node }
{
    match node {
        Node::Element { index, .. } => Fields::of(&[index]),
        Node::Square { row, column, .. } => Fields::of(&[row, column]),
        Node::Rows { index, .. } => Fields::of(&[index]),
        Node::Item { index, row, .. } => Fields::of(&[index, row]),
        Node::Size(message) => Fields::of(&[message]),
        Node::Binary { left, right, .. } => Fields::of(&[left, right]),
        Node::Apply { operand, .. } => Fields::of(&[operand]),
        Node::Pick {
            condition,
            first,
            second,
        } => Fields::of(&[condition, first, second]),
        Node::Held { index, row, .. } => Fields::of(&[index, row]),
        Node::Cut {
            message,
            from,
            length,
        } => Fields::of(&[message, from, length]),
        Node::Tail { message, from } => Fields::of(&[message, from]),
        Node::Join { first, second } => Fields::of(&[first, second]),
        _ => Fields::new(),
    }
}

/// A cell as it is read now.
fn seen_in(counts: &Counts, place: u8, cell: u8) -> Seen
    ensures { result ≡ seen_in counts.now place cell }
{
    Seen {
        place,
        cell,
        writes: count_of(counts, place, cell),
    }
}

/// The form of a node whose parts have these values.
pub(crate) fn form_of(node: Node, counts: &Counts, values: &Fields) -> ValueForm
    ensures { result ≡ form_of (seen_in counts.now) node values.now }
{
    match node {
        Node::Me => ValueForm::Number(NumberForm::Me),
        Node::Count => ValueForm::Number(NumberForm::Count),
        Node::Ltime => ValueForm::Number(NumberForm::Ltime),
        Node::Element { place, cell, .. } => ValueForm::Number(NumberForm::Element {
            seen: seen_in(counts, place, cell),
            index: values.at(0),
        }),
        Node::Square { place, cell, .. } => ValueForm::Number(NumberForm::Square {
            seen: seen_in(counts, place, cell),
            row: values.at(0),
            column: values.at(1),
        }),
        Node::Rows { place, cell, .. } => ValueForm::Number(NumberForm::Rows {
            seen: seen_in(counts, place, cell),
            index: values.at(0),
        }),
        Node::Item {
            place,
            cell,
            number,
            ..
        } => ValueForm::Number(NumberForm::Item {
            seen: seen_in(counts, place, cell),
            index: values.at(0),
            row: values.at(1),
            number,
        }),
        Node::Size(_) => ValueForm::Number(NumberForm::Size(values.at(0))),
        Node::Binary { operator, .. } => ValueForm::Number(NumberForm::Binary {
            operator,
            left: values.at(0),
            right: values.at(1),
        }),
        Node::Apply { function, .. } => ValueForm::Number(NumberForm::Apply {
            function,
            operand: values.at(0),
        }),
        Node::Pick { .. } => ValueForm::Number(NumberForm::Pick {
            condition: values.at(0),
            first: values.at(1),
            second: values.at(2),
        }),
        Node::Held {
            place,
            cell,
            load,
            ..
        } => ValueForm::Message(MessageForm::Held {
            seen: seen_in(counts, place, cell),
            index: values.at(0),
            row: values.at(1),
            load,
        }),
        Node::Cut { .. } => ValueForm::Message(MessageForm::Cut {
            message: values.at(0),
            from: values.at(1),
            length: values.at(2),
        }),
        Node::Tail { .. } => ValueForm::Message(MessageForm::Tail {
            message: values.at(0),
            from: values.at(1),
        }),
        Node::Join { .. } => ValueForm::Message(MessageForm::Join {
            first: values.at(0),
            second: values.at(1),
        }),
        _ => ValueForm::Number(NumberForm::Number(0)),
    }
}
