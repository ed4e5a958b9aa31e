//! Numbers and messages over nodes, as text.
//!
//! What a node names is below it, and a note names the notes before it. Where there is no node of the right sort, the
//! definitions read the number 0 and no bytes, and so does this.

ghost use Rattle.std.specs.Prelude.{◌≡◌, ◌<◌, ◌++◌, ◌∷◌, [], OnOk, Some, codes, slice_get, slice_index_or, take};
ghost use Rattle.bypass_mean.specs.Text.{cell_name, core_text, bracketed_index, layer_of, bracketed_list};
ghost use Rattle.bypass_mean.specs.Text.{numbers_called};
ghost use Rattle.synth_print.specs.Parts.{AreBelow, part_text, parts_text};
ghost use Rattle.synth_print.specs.Source.{nodes_in};
ghost use Rattle.synth_print.specs.Texts.{cell_at, layers_in, message_at, number_at, terms_in, written_in};
ghost use Rattle.trace_core.specs.Arena.{IsBelow};
ghost use Rattle.trace_core.specs.View.{core_tree, message_in, message_of, number_in, number_of, term_of, terms};
ghost use Rattle.trace_mean.specs.Fuse.{form_at};

use crate::atoms::{push_atom, push_numbered};
use crate::cells::{is_alone, push_called, push_cell_name};
use crate::part::Part;
use crate::scope::{Below, Scope};
use crate::source::Nodes;
use crate::words::{function_opening, operator_between};
use crate::written::{Indexes, Note, Spot};
use msg_core::Memory;
use report_lines::Line;
use trace_core::{Atom, Core, Node};

/// The node of a number; where there is none, one that is read alike.
#[tactic(auto, using(crate::proofs::Read::no_number, crate::proofs::Read::no_message))]
fn node_at(nodes: &Nodes<'_>, number: u32) -> Node
    ensures before { IsBelow number result }
    ensures number { number_in (terms (nodes_in nodes.now)) number ≡
        number_of (Some (term_of (terms (nodes_in nodes.now)) result)) }
    ensures message { message_in (terms (nodes_in nodes.now)) number ≡
        message_of (Some (term_of (terms (nodes_in nodes.now)) result)) }
{
    if number < nodes.count() {
        nodes.node(number)
    } else {
        Node::Atom(Atom::Number(0))
    }
}

/// The note of a number, where it may be named.
fn note_at(scope: &Scope<'_>, number: u32) -> Option<Note>
    ensures { result ≡ slice_get (take scope.now.notes scope.now.written.now.notes.items) number }
{
    let number = number as usize;
    if number < scope.notes {
        scope.written.notes.get(number).copied()
    } else {
        None
    }
}

/// A number.
#[cycle(texts)]
#[tactic(auto, using(crate::proofs::Read::number_read))]
pub(crate) fn push_number(line: &mut Line, scope: &Scope<'_>, number: u32) -> Result<(), Memory>
    ensures { OnOk result (line.new ≡ line.old ++ number_at scope.now number) }
{
    let below = Below {
        scope: &*scope,
        number,
    };
    match node_at(&scope.source.nodes, number) {
        Node::Atom(atom) => push_atom(line, scope, atom),
        Node::Me => line.text(b"me"),
        Node::Count => line.text(b"n"),
        Node::Ltime => line.text(b"ltime"),
        Node::Element { place, cell, index } => push_cell(line, scope, Spot { place, cell }, index),
        Node::Square {
            place,
            cell,
            row,
            column,
        } => push_square(line, below, Spot { place, cell }, Indexes { row, column }),
        Node::Rows { place, cell, index } => push_parts(
            line,
            below,
            b"len(",
            b"",
            &[Part::Cell(Spot { place, cell }, index)],
        ),
        Node::Item {
            place,
            cell,
            index,
            row,
            number: item,
        } => push_item(
            line,
            below,
            Spot { place, cell },
            RowItem { index, row, item },
        ),
        Node::Size(message) => push_parts(line, below, b"size(", b"", &[Part::Message(message)]),
        Node::Binary {
            operator,
            left,
            right,
        } => push_parts(
            line,
            below,
            b"(",
            operator_between(operator),
            &[Part::Number(left), Part::Number(right)],
        ),
        Node::Apply { function, operand } => push_parts(
            line,
            below,
            function_opening(function),
            b"",
            &[Part::Number(operand)],
        ),
        Node::Pick {
            condition,
            first,
            second,
        } => push_parts(
            line,
            below,
            b"pick(",
            b",",
            &[
                Part::Number(condition),
                Part::Number(first),
                Part::Number(second),
            ],
        ),
        _ => line.number(0),
    }
}

/// The message of a number.
#[cycle(texts)]
#[tactic(auto, using(crate::proofs::Read::message_read))]
pub(crate) fn push_message(line: &mut Line, scope: &Scope<'_>, number: u32) -> Result<(), Memory>
    ensures { OnOk result (line.new ≡ line.old ++ message_at scope.now number) }
{
    let below = Below {
        scope: &*scope,
        number,
    };
    match node_at(&scope.source.nodes, number) {
        Node::Core(core) => push_core(line, scope, core),
        Node::Held {
            place,
            cell,
            index,
            row,
            load: _,
        } => push_parts(
            line,
            below,
            b"held(",
            b",",
            &[Part::Cell(Spot { place, cell }, index), Part::Number(row)],
        ),
        Node::Cut {
            message: whole,
            from,
            length,
        } => push_parts(
            line,
            below,
            b"cut(",
            b",",
            &[
                Part::Message(whole),
                Part::Number(from),
                Part::Number(length),
            ],
        ),
        Node::Tail {
            message: whole,
            from,
        } => push_parts(
            line,
            below,
            b"tail(",
            b",",
            &[Part::Message(whole), Part::Number(from)],
        ),
        Node::Join { first, second } => push_parts(
            line,
            below,
            b"join(",
            b",",
            &[Part::Message(first), Part::Message(second)],
        ),
        _ => line.text(b"nothing"),
    }
}

/// A message that no cell is read for, without its known headers.
#[cycle(texts)]
pub(crate) fn push_core(line: &mut Line, scope: &Scope<'_>, core: Core) -> Result<(), Memory>
    ensures { OnOk result (line.new ≡ line.old ++ core_text (written_in scope.now) (core_tree core)) }
{
    match core {
        Core::Body => line.text(b"body"),
        Core::Noted(number) => push_note(line, scope, number),
        Core::Taken { row, load: _ } => push_numbered(line, b"row.", row),
        Core::Nothing => line.text(b"nothing"),
    }
}

/// A noted message, called by its number or written out: what it names was there before it.
#[cycle(texts)]
#[tactic(auto, using(crate::proofs::Rules::of_push_note))]
fn push_note(line: &mut Line, scope: &Scope<'_>, number: u32) -> Result<(), Memory>
    ensures { OnOk result (line.new ≡ line.old ++ slice_index_or (written_in scope.now).notes number []) }
{
    let Some(note) = note_at(scope, number) else {
        return Ok(());
    };
    match note {
        Note::Called => push_numbered(line, b"m.", number),
        Note::Spelled { message, rows } => {
            let before = Scope {
                stack: scope.stack,
                written: scope.written,
                source: scope.source,
                rows,
                notes: number as usize,
            };
            push_message(line, &before, message)
        }
    }
}

/// A part.
#[cycle(texts)]
fn push_part(line: &mut Line, scope: &Scope<'_>, part: Part) -> Result<(), Memory>
    ensures { OnOk result (line.new ≡ line.old ++ part_text scope.now part) }
{
    match part {
        Part::Number(number) => push_number(line, scope, number),
        Part::Message(message) => push_message(line, scope, message),
        Part::Cell(spot, index) => push_cell(line, scope, spot, index),
    }
}

/// Parts, after what opens them and with something between.
#[cycle(texts)]
fn push_parts(
    line: &mut Line,
    below: Below<'_>,
    opening: &[u8],
    between: &[u8],
    parts: &[Part],
) -> Result<(), Memory>
    requires { AreBelow below.number parts.now }
    ensures { OnOk result (line.new ≡ line.old ++
        parts_text below.entry.scope.now opening.now between.now parts.now) }
{
    match parts {
        [] => line.text(b")"),
        [part, rest @ ..] => {
            line.text(opening)?;
            push_part(line, below.scope, *part)?;
            push_parts(line, below, between, between, rest)
        }
    }
}

/// A number in square brackets.
#[cycle(texts)]
pub(crate) fn push_indexed(line: &mut Line, scope: &Scope<'_>, index: u32) -> Result<(), Memory>
    ensures { OnOk result (line.new ≡ line.old ++ bracketed_index (number_at scope.now index)) }
{
    line.text(b"[")?;
    push_number(line, scope, index)?;
    line.text(b"]")
}

/// A cell, with its index unless it is told without one.
#[cycle(texts)]
pub(crate) fn push_cell(
    line: &mut Line,
    scope: &Scope<'_>,
    spot: Spot,
    index: u32,
) -> Result<(), Memory>
    ensures { OnOk result (line.new ≡ line.old ++ cell_at scope.now spot index) }
{
    push_cell_name(line, scope.stack, spot.place, spot.cell)?;
    if is_alone(scope.stack, spot.place, spot.cell) {
        return Ok(());
    }
    push_indexed(line, scope, index)
}

/// A number of a square cell.
#[cycle(texts)]
fn push_square(
    line: &mut Line,
    below: Below<'_>,
    spot: Spot,
    indexes: Indexes,
) -> Result<(), Memory>
    requires { (indexes.row < below.number) × (indexes.column < below.number) }
    ensures { OnOk result (line.new ≡ line.old ++ cell_name (layers_in below.entry.scope.now) spot.place spot.cell
        ++ bracketed_index (number_at below.entry.scope.now indexes.row)
        ++ bracketed_index (number_at below.entry.scope.now indexes.column)) }
{
    push_cell_name(line, below.scope.stack, spot.place, spot.cell)?;
    push_indexed(line, below.scope, indexes.row)?;
    push_indexed(line, below.scope, indexes.column)
}

/// A number of a row of a queue: the nodes of the queue's index and of how many rows are before it, and which it is.
#[derive(Clone, Copy)]
struct RowItem {
    index: u32,
    row: u32,
    item: u8,
}

/// A number of a row of a queue.
#[cycle(texts)]
fn push_item(line: &mut Line, below: Below<'_>, spot: Spot, item: RowItem) -> Result<(), Memory>
    requires { (item.index < below.number) × (item.row < below.number) }
    ensures { OnOk result (line.new ≡ line.old ++ codes "at"
        ++ bracketed_list (cell_at below.entry.scope.now spot item.index
        ∷ number_at below.entry.scope.now item.row ∷ []) ++ codes "."
        ++ slice_index_or (numbers_called (form_at (layer_of (layers_in below.entry.scope.now) spot.place) spot.cell))
        item.item []) }
{
    let parts = [Part::Cell(spot, item.index), Part::Number(item.row)];
    push_parts(line, below, b"at(", b",", &parts)?;
    line.text(b".")?;
    push_called(line, below.scope.stack, spot.place, spot.cell, item.item)
}
