//! What operations leave: their lines, and what those after them may name.

ghost use Rattle.std.specs.Prelude.{◌≡◌, ◌+◌, ◌^◌, ◌<◌, ◌≤◌, ◌++◌, [], IfOk, OnOk, codes, length};
ghost use Rattle.std.specs.Fmt.{decimal};
ghost use Rattle.bypass_mean.specs.Text.{message_text, nothing_written, with_note};
ghost use Rattle.stack_judge.specs.Answer.{stack_tree};
ghost use Rattle.synth_print.specs.Lines.{done_lines, done_text, follows, line_if, message_of, noted_text, opening};
ghost use Rattle.synth_print.specs.Lines.{operation_of, with_row};
ghost use Rattle.synth_print.specs.Source.{nodes_in};
ghost use Rattle.synth_print.specs.Texts.{chains_in, layers_in, terms_in, written_in, written_of};
ghost use Rattle.synth_print.specs.Written.{row_called};
ghost use Rattle.trace_core.specs.Links.{chains};
ghost use Rattle.trace_core.specs.Operations.{IsPart};
ghost use Rattle.trace_core.specs.View.{terms};
ghost use Rattle.trace_mean.specs.Trace.{note};

use crate::numbers::push_message;
use crate::operations::push_operation;
use crate::scope::Scope;
use crate::source::Source;
use crate::written::{Note, Spot, Written};
use msg_core::Memory;
use report_lines::Line;
use stack_judge::Stack;
use std::alloc::Global;
use trace_core::Operation;

/// What may be named before the first operation.
#[tactic(auto, unfolding(crate::specs::Written::note_texts))]
pub(crate) fn nothing(alloc: Global, _stack: &Stack, _source: &Source<'_>) -> Written
    ensures { written_of _stack.now _source.now result ≡ nothing_written }
{
    Written {
        binds: 0,
        rows: Vec::new(alloc),
        notes: Vec::new(alloc),
    }
}

/// Notes a message, which is written out wherever it is named.
#[tactic(auto, using(crate::proofs::Notes::noted, crate::proofs::Notes::spelled_within))]
fn add_spelled(
    _stack: &Stack,
    written: &mut Written,
    _source: &Source<'_>,
    message: u32,
) -> Result<(), Memory>
    ensures noted { OnOk result (written_of _stack.now _source.now written.new
        ≡ with_note (message_text (stack_tree _stack.now) (written_of _stack.now _source.now written.old)
        (message_of _source.now message)) (written_of _stack.now _source.now written.old)) }
    ensures few { OnOk result (written.new.binds ≤ written.old.binds + 1) }
{
    let rows = written.rows.len();
    written.notes.push(Note::Spelled { message, rows })?;
    Ok(())
}

/// Notes a message, which is called by the number of its note.
#[tactic(auto, using(crate::proofs::Notes::called_within))]
fn add_called(_stack: &Stack, written: &mut Written, _source: &Source<'_>) -> Result<(), Memory>
    ensures noted { OnOk result (written_of _stack.now _source.now written.new
        ≡ with_note (codes "m." ++ decimal (length (written_of _stack.now _source.now written.old).notes))
        (written_of _stack.now _source.now written.old)) }
    ensures few { OnOk result (written.new.binds ≤ written.old.binds + 1) }
{
    written.notes.push(Note::Called)?;
    Ok(())
}

/// Takes a row of a queue.
#[tactic(auto, using(crate::proofs::Notes::taken_within))]
fn add_row(
    _stack: &Stack,
    written: &mut Written,
    _source: &Source<'_>,
    row: Spot,
) -> Result<(), Memory>
    ensures taken { OnOk result (written_of _stack.now _source.now written.new
        ≡ with_row (row_called (stack_tree _stack.now) row) (written_of _stack.now _source.now written.old)) }
    ensures few { OnOk result (written.new.binds ≤ written.old.binds + 1) }
{
    written.rows.push(row)?;
    Ok(())
}

/// What stands before an operation.
fn push_opening(line: &mut Line, noting: bool) -> Result<(), Memory>
    ensures { OnOk result (line.new ≡ line.old ++ opening noting) }
{
    if noting { Ok(()) } else { line.text(b"do ") }
}

/// Builds the line of an operation.
fn build_line(line: &mut Line, scope: &Scope<'_>, operation: Operation) -> Result<(), Memory>
    requires { IsPart (terms_in scope.now) (chains_in scope.now) operation }
    ensures { OnOk result
        (line.new ≡ line.old ++ done_text scope.now.source.now.noting (layers_in scope.now) (written_in scope.now)
        (operation_of scope.now.source.now operation)) }
{
    push_opening(line, scope.source.noting)?;
    push_operation(line, scope, operation)?;
    line.text(b"\n")
}

/// Builds the line of an operation, which may name all that was written.
#[tactic(auto, using(crate::proofs::Notes::whole_text))]
fn build_done(
    line: &mut Line,
    stack: &Stack,
    written: &Written,
    source: &Source<'_>,
    operation: Operation,
) -> Result<(), Memory>
    requires { IsPart (terms (nodes_in source.now.nodes)) (chains source.now.links.now) operation }
    ensures { OnOk result (line.new ≡ line.old ++ done_text source.now.noting (stack_tree stack.now)
        (written_of stack.now source.now written.now) (operation_of source.now operation)) }
{
    let scope = Scope {
        stack,
        written,
        source,
        rows: written.rows.len(),
        notes: written.notes.len(),
    };
    build_line(line, &scope, operation)
}

/// How many noted messages may be named.
#[tactic(auto, using(crate::proofs::Notes::many_notes))]
fn notes_of(scope: &Scope<'_>) -> u64
    ensures { result ≡ length (written_in scope.now).notes }
{
    scope.notes.min(scope.written.notes.len()) as u64
}

/// Builds the line of a note.
fn build_note(line: &mut Line, scope: &Scope<'_>, message: u32) -> Result<(), Memory>
    ensures { OnOk result (line.new ≡ line.old
        ++ noted_text (layers_in scope.now) (written_in scope.now) (message_of scope.now.source.now message)) }
{
    line.text(b"note m.")?;
    line.number(notes_of(scope))?;
    line.text(b" = ")?;
    push_message(line, scope, message)?;
    line.text(b"\n")
}

/// Builds the line of a note, which may name all that was written.
#[tactic(auto, using(crate::proofs::Notes::whole_noted))]
fn build_noted(
    line: &mut Line,
    stack: &Stack,
    written: &Written,
    source: &Source<'_>,
    message: u32,
) -> Result<(), Memory>
    ensures { OnOk result (line.new ≡ line.old ++ noted_text (stack_tree stack.now)
        (written_of stack.now source.now written.now) (message_of source.now message)) }
{
    let scope = Scope {
        stack,
        written,
        source,
        rows: written.rows.len(),
        notes: written.notes.len(),
    };
    build_note(line, &scope, message)
}

/// Notes a message, and builds the line of the note on an empty line, if it has one; answers whether it has.
fn note_message(
    line: &mut Line,
    stack: &Stack,
    written: &mut Written,
    source: &Source<'_>,
    message: u32,
) -> Result<bool, Memory>
    requires { line.old ≡ [] }
    ensures lines { IfOk result (λ has. line_if has line.new ≡ done_lines source.now.noting (stack_tree stack.now)
        (written_of stack.now source.now written.old) (note (message_of source.now message))) }
    ensures written { IfOk result (λ _. written_of stack.now source.now written.new
        ≡ follows source.now.noting (stack_tree stack.now) (written_of stack.now source.now written.old)
        (note (message_of source.now message))) }
    ensures few { IfOk result (λ _. written.new.binds ≤ written.old.binds + 1) }
{
    if source.noting {
        build_noted(line, stack, written, source, message)?;
        add_called(stack, written, source)?;
        Ok(true)
    } else {
        add_spelled(stack, written, source, message)?;
        Ok(false)
    }
}

/// Builds the line of an operation on an empty line, if it has one; answers whether it has. What it binds, takes or
/// notes may be named from then on.
pub(crate) fn build_operation(
    line: &mut Line,
    stack: &Stack,
    written: &mut Written,
    source: &Source<'_>,
    operation: Operation,
) -> Result<bool, Memory>
    requires empty { line.old ≡ [] }
    requires few { written.old.binds + 1 < 2 ^ 64 }
    requires parts { IsPart (terms (nodes_in source.now.nodes)) (chains source.now.links.now) operation }
    ensures lines { IfOk result (λ has. line_if has line.new ≡ done_lines source.now.noting (stack_tree stack.now)
        (written_of stack.now source.now written.old) (operation_of source.now operation)) }
    ensures written { IfOk result (λ _. written_of stack.now source.now written.new
        ≡ follows source.now.noting (stack_tree stack.now) (written_of stack.now source.now written.old)
        (operation_of source.now operation)) }
    ensures few { IfOk result (λ _. written.new.binds ≤ written.old.binds + 1) }
{
    match operation {
        Operation::Note(message) => note_message(line, stack, written, source, message),
        Operation::Bind(_) => {
            build_done(line, stack, written, source, operation)?;
            written.binds += 1;
            Ok(true)
        }
        Operation::Take { place, cell, .. } => {
            build_done(line, stack, written, source, operation)?;
            add_row(stack, written, source, Spot { place, cell })?;
            Ok(true)
        }
        _ => {
            build_done(line, stack, written, source, operation)?;
            Ok(true)
        }
    }
}
