//! The text of operations.

ghost use Rattle.std.specs.Prelude.{◌≡◌, ◌++◌, [], true, OnOk, codes, length, option_map};
ghost use Rattle.std.specs.Option.{option_map_or};
ghost use Rattle.bypass_mean.specs.Text.{cell_name, bracketed_index};
ghost use Rattle.layer_words.specs.Signs.{direction_sign};
ghost use Rattle.synth_print.specs.Headers.{atom_texts, comma_list};
ghost use Rattle.synth_print.specs.Operations.{after_of, core_of, is_change, last_part, listed_cores, listed_rows};
ghost use Rattle.synth_print.specs.Operations.{number_texts, pushed_of};
ghost use Rattle.synth_print.specs.Texts.{chains_in, layers_in, number_at, operation_text, terms_in, written_in};
ghost use Rattle.trace_core.specs.Operations.{HasChain, IsPart, chained_in};
ghost use Rattle.trace_core.specs.declared.operation.Operation.TheVariants as operations;

use crate::cells::push_cell_name;
use crate::headers::{push_after, push_atoms, push_chained};
use crate::numbers::{push_cell, push_core, push_indexed, push_number};
use crate::scope::Scope;
use crate::written::{Indexes, Spot};
use layer_words::{Dir, Kind};
use msg_core::{Fields, Memory};
use report_lines::{Line, push_lead};
use trace_core::{Atoms, Chained, Operation};

/// Numbers, with commas between.
fn push_numbers(line: &mut Line, scope: &Scope<'_>, numbers: &Fields) -> Result<(), Memory>
    ensures { OnOk result (line.new ≡ line.old
        ++ comma_list (number_texts (layers_in scope.now) (written_in scope.now) (terms_in scope.now) numbers.now)) }
{
    for k in 0..numbers.len() {
        push_lead(line, b",", k)?;
        push_number(line, scope, numbers.at(k))?;
    }
    Ok(())
}

/// The message of a row that is pushed, after its `count` numbers.
fn push_last_message(
    line: &mut Line,
    scope: &Scope<'_>,
    count: u32,
    message: Option<Chained>,
) -> Result<(), Memory>
    requires { HasChain (chains_in scope.now) message }
    ensures { OnOk result (line.new ≡ line.old ++ last_part count
        (option_map (pushed_of (layers_in scope.now) (written_in scope.now) (chains_in scope.now)) message)) }
{
    match message {
        Some(message) => {
            push_lead(line, b",", count)?;
            push_chained(line, scope, message)
        }
        None => Ok(()),
    }
}

/// The parts of a row that is pushed, in brackets.
fn push_row_parts(
    line: &mut Line,
    scope: &Scope<'_>,
    numbers: &Fields,
    message: Option<Chained>,
) -> Result<(), Memory>
    requires { HasChain (chains_in scope.now) message }
    ensures { OnOk result (line.new ≡ line.old ++ codes "("
        ++ comma_list (number_texts (layers_in scope.now) (written_in scope.now) (terms_in scope.now) numbers.now)
        ++ last_part (length numbers.now)
        (option_map (pushed_of (layers_in scope.now) (written_in scope.now) (chains_in scope.now)) message)
        ++ codes ")") }
{
    line.text(b"(")?;
    push_numbers(line, scope, numbers)?;
    push_last_message(line, scope, numbers.len(), message)?;
    line.text(b")")
}

/// A row that is pushed.
fn push_row(
    line: &mut Line,
    scope: &Scope<'_>,
    numbers: &Fields,
    message: Option<Chained>,
) -> Result<(), Memory>
    requires { HasChain (chains_in scope.now) message }
    ensures { OnOk result (line.new ≡ line.old
        ++ listed_rows (layers_in scope.now) (written_in scope.now) (terms_in scope.now) (chains_in scope.now)
        numbers.now message) }
{
    push_row_parts(line, scope, numbers, message)
}

/// The message of an output, after its `count` numbers and without its known headers.
fn push_last_core(
    line: &mut Line,
    scope: &Scope<'_>,
    count: u32,
    message: Option<Chained>,
) -> Result<(), Memory>
    ensures { OnOk result
        (line.new ≡ line.old ++ last_part count (option_map (core_of (written_in scope.now)) message)) }
{
    match message {
        Some(message) => {
            push_lead(line, b",", count)?;
            push_core(line, scope, message.core)
        }
        None => Ok(()),
    }
}

/// The parts of an output, in brackets.
fn push_output_parts(
    line: &mut Line,
    scope: &Scope<'_>,
    numbers: &Atoms,
    message: Option<Chained>,
) -> Result<(), Memory>
    ensures { OnOk result (line.new ≡ line.old ++ codes "("
        ++ comma_list (atom_texts (written_in scope.now) numbers.now)
        ++ last_part (length numbers.now) (option_map (core_of (written_in scope.now)) message) ++ codes ")") }
{
    line.text(b"(")?;
    push_atoms(line, scope, numbers)?;
    push_last_core(line, scope, numbers.len(), message)?;
    line.text(b")")
}

/// The numbers of an output, and its message without its known headers.
fn push_arguments(
    line: &mut Line,
    scope: &Scope<'_>,
    numbers: &Atoms,
    message: Option<Chained>,
) -> Result<(), Memory>
    ensures { OnOk result
        (line.new ≡ line.old ++ listed_cores (written_in scope.now) (chains_in scope.now) numbers.now message) }
{
    push_output_parts(line, scope, numbers, message)
}

/// The known headers of an output.
fn push_output_headers(
    line: &mut Line,
    scope: &Scope<'_>,
    message: Option<Chained>,
) -> Result<(), Memory>
    requires { HasChain (chains_in scope.now) message }
    ensures { OnOk result (line.new ≡ line.old ++ option_map_or (after_of (layers_in scope.now) (written_in scope.now))
        (option_map (chained_in (chains_in scope.now)) message) []) }
{
    match message {
        Some(message) => push_after(line, scope, message.chain),
        None => Ok(()),
    }
}

/// ` = `, and the number that is set.
fn push_assigned(line: &mut Line, scope: &Scope<'_>, value: u32) -> Result<(), Memory>
    ensures { OnOk result (line.new ≡ line.old ++ codes " = " ++ number_at scope.now value) }
{
    line.text(b" = ")?;
    push_number(line, scope, value)
}

/// The operation that binds a number.
fn push_bind(line: &mut Line, scope: &Scope<'_>, value: u32) -> Result<(), Memory>
    ensures { OnOk result (line.new ≡ line.old ++ operation_text scope.now (operations.Bind value)) }
{
    line.text(b"bind t.")?;
    line.number(scope.written.binds)?;
    push_assigned(line, scope, value)
}

/// The operation that checks a condition.
fn push_check(line: &mut Line, scope: &Scope<'_>, condition: u32) -> Result<(), Memory>
    ensures { OnOk result (line.new ≡ line.old ++ operation_text scope.now (operations.Check condition)) }
{
    line.text(b"check ")?;
    push_number(line, scope, condition)
}

/// The operation that sets a number of a cell.
fn push_set(
    line: &mut Line,
    scope: &Scope<'_>,
    spot: Spot,
    index: u32,
    value: u32,
) -> Result<(), Memory>
    ensures { OnOk result
        (line.new ≡ line.old ++ operation_text scope.now (operations.Set spot.place spot.cell index value)) }
{
    line.text(b"set ")?;
    push_cell(line, scope, spot, index)?;
    push_assigned(line, scope, value)
}

/// A number of a square cell.
fn push_pair(line: &mut Line, scope: &Scope<'_>, spot: Spot, indexes: Indexes) -> Result<(), Memory>
    ensures { OnOk result (line.new ≡ line.old ++ cell_name (layers_in scope.now) spot.place spot.cell
        ++ bracketed_index (number_at scope.now indexes.row) ++ bracketed_index (number_at scope.now indexes.column)) }
{
    push_cell_name(line, scope.stack, spot.place, spot.cell)?;
    push_indexed(line, scope, indexes.row)?;
    push_indexed(line, scope, indexes.column)
}

/// The operation that sets a number of a square cell.
fn push_set_square(
    line: &mut Line,
    scope: &Scope<'_>,
    spot: Spot,
    indexes: Indexes,
    value: u32,
) -> Result<(), Memory>
    ensures { OnOk result (line.new ≡ line.old ++
        operation_text scope.now (operations.SetSquare spot.place spot.cell indexes.row indexes.column value)) }
{
    line.text(b"set ")?;
    push_pair(line, scope, spot, indexes)?;
    push_assigned(line, scope, value)
}

/// A row that is pushed: the nodes of its numbers, and its message, if it has one.
#[derive(Clone, Copy)]
struct PushedRow {
    numbers: Fields,
    message: Option<Chained>,
}

/// The operation that pushes a row.
fn push_push(
    line: &mut Line,
    scope: &Scope<'_>,
    spot: Spot,
    index: u32,
    row: PushedRow,
) -> Result<(), Memory>
    requires { HasChain (chains_in scope.now) row.message }
    ensures { OnOk result
        (line.new ≡ line.old ++
        operation_text scope.now (operations.Push spot.place spot.cell index row.numbers row.message)) }
{
    line.text(b"push ")?;
    push_cell(line, scope, spot, index)?;
    line.text(b" ")?;
    push_row(line, scope, &row.numbers, row.message)
}

/// How many taken rows may be named.
#[tactic(auto, using(crate::proofs::Notes::many_rows))]
fn rows_of(scope: &Scope<'_>) -> u64
    ensures { result ≡ length (written_in scope.now).rows }
{
    scope.rows.min(scope.written.rows.len()) as u64
}

/// The operation that takes a row.
fn push_take(line: &mut Line, scope: &Scope<'_>, spot: Spot, index: u32) -> Result<(), Memory>
    ensures { OnOk result
        (line.new ≡ line.old ++ operation_text scope.now (operations.Take spot.place spot.cell index)) }
{
    line.text(b"take ")?;
    push_cell(line, scope, spot, index)?;
    line.text(b" row.")?;
    line.number(rows_of(scope))
}

/// Where an event goes, and of which kind it is.
#[derive(Clone, Copy)]
struct Way {
    dir: Dir,
    kind: Kind,
}

/// The operation that sends an event.
fn push_output(
    line: &mut Line,
    scope: &Scope<'_>,
    way: Way,
    numbers: &Atoms,
    message: Option<Chained>,
) -> Result<(), Memory>
    requires { HasChain (chains_in scope.now) message }
    ensures { OnOk result
        (line.new ≡ line.old ++ operation_text scope.now (operations.Output way.dir way.kind numbers.now message)) }
{
    line.text(b"out ")?;
    line.text(way.dir.word().as_bytes())?;
    line.text(b" ")?;
    line.text(way.kind.word().as_bytes())?;
    push_arguments(line, scope, numbers, message)?;
    push_output_headers(line, scope, message)
}

/// An operation that changes a cell and takes nothing.
fn push_change(line: &mut Line, scope: &Scope<'_>, operation: Operation) -> Result<(), Memory>
    requires change { is_change operation ≡ true }
    requires parts { IsPart (terms_in scope.now) (chains_in scope.now) operation }
    ensures { OnOk result (line.new ≡ line.old ++ operation_text scope.now operation) }
{
    match operation {
        Operation::Set {
            place,
            cell,
            index,
            value,
        } => push_set(line, scope, Spot { place, cell }, index, value),
        Operation::SetSquare {
            place,
            cell,
            row,
            column,
            value,
        } => push_set_square(
            line,
            scope,
            Spot { place, cell },
            Indexes { row, column },
            value,
        ),
        Operation::Push {
            place,
            cell,
            index,
            numbers,
            message,
        } => push_push(
            line,
            scope,
            Spot { place, cell },
            index,
            PushedRow { numbers, message },
        ),
        _ => unreachable!(),
    }
}

/// An operation; a note has no text of its own.
pub(crate) fn push_operation(
    line: &mut Line,
    scope: &Scope<'_>,
    operation: Operation,
) -> Result<(), Memory>
    requires { IsPart (terms_in scope.now) (chains_in scope.now) operation }
    ensures { OnOk result (line.new ≡ line.old ++ operation_text scope.now operation) }
{
    match operation {
        Operation::Bind(value) => push_bind(line, scope, value),
        Operation::Note(_) => Ok(()),
        Operation::Check(condition) => push_check(line, scope, condition),
        Operation::Take { place, cell, index } => push_take(
            line,
            scope,
            Spot { place, cell },
            index,
        ),
        Operation::Output {
            dir,
            kind,
            numbers,
            message,
        } => push_output(line, scope, Way { dir, kind }, &numbers, message),
        _ => push_change(line, scope, operation),
    }
}
