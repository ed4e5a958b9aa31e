//! The lines of guarded handlers and of traces.

ghost use Rattle.std.specs.Prelude.{◌≡◌, ◌+◌, ◌^◌, ◌<◌, ◌≤◌, ◌++◌, ◌∷◌, [], false, true, OnOk, Some, codes, length};
ghost use Rattle.std.specs.Fmt.{decimal};
ghost use Rattle.std.specs.List.{enumerate_from, flat_map, slice_get};
ghost use Rattle.bypass_mean.specs.Lines.{conjunct_line, ended_line, guarded_lines};
ghost use Rattle.bypass_mean.specs.Text.{nothing_written, number_text, operation_lines};
ghost use Rattle.stack_judge.specs.Answer.{stack_tree};
ghost use Rattle.outside.specs.Lines.{Wrote};
ghost use Rattle.outside.specs.Tells.{tells_of};
ghost use Rattle.synth_print.specs.Lines.{all_done, conjunct_turn, done_lines, ended_lines, follows, handler_in};
ghost use Rattle.synth_print.specs.Lines.{numbers_of};
ghost use Rattle.synth_print.specs.Lines.{operation_of, value_turn};
ghost use Rattle.synth_print.specs.Source.{nodes_in, operations_in};
ghost use Rattle.synth_print.specs.Texts.{layers_in, terms_in, written_in, written_of};
ghost use Rattle.trace_core.specs.Links.{chains};
ghost use Rattle.trace_core.specs.Operations.{IsPart, are_parts};
ghost use Rattle.trace_core.specs.Trees.{guarded_tree, trace_tree};
ghost use Rattle.trace_core.specs.View.{number_in, terms};

use crate::done::{build_operation, nothing};
use crate::numbers::push_number;
use crate::pen::Pen;
use crate::scope::Scope;
use crate::source::{Nodes, Source, Stacked};
use crate::written::Written;
use msg_core::Memory;
use outside::{Sink, SinkError, put_line};
use report_lines::Line;
use stack_judge::Stack;
use trace_core::{Guarded, Operation, Trace};

/// Builds the line of an entry value, before which nothing was written.
fn build_value(line: &mut Line, scope: &Scope<'_>, number: u64, value: u32) -> Result<(), Memory>
    requires { written_in scope.now ≡ nothing_written }
    ensures { OnOk result (line.new ≡ line.old ++ ended_line (codes "let v." ++ decimal number ++ codes " = "
        ++ number_text (layers_in scope.now) nothing_written (number_in (terms_in scope.now) value))) }
{
    line.text(b"let v.")?;
    line.number(number)?;
    line.text(b" = ")?;
    push_number(line, scope, value)?;
    line.text(b"\n")
}

/// Puts the line of an entry value.
fn write_value<O: Sink>(
    line: &mut Line,
    scope: &Scope<'_>,
    number: u64,
    value: u32,
    out: &mut O,
) -> Result<(), SinkError>
    requires { written_in scope.now ≡ nothing_written }
    ensures { Wrote (value_turn (layers_in scope.now) (number, number_in (terms_in scope.now) value))
        (tells_of O.Sink out.old) (tells_of O.Sink out.new) result }
{
    line.clear();
    build_value(line, scope, number, value)?;
    put_line(line.slice(), out)
}

/// A node of a list.
fn node_of(nodes: &[u32], k: usize) -> u32
    requires { k < length nodes.now }
    ensures { slice_get nodes.now k ≡ Some result }
{
    nodes[k]
}

/// Puts the lines of the entry values.
fn write_values<O: Sink>(
    line: &mut Line,
    scope: &Scope<'_>,
    values: &[u32],
    out: &mut O,
) -> Result<(), SinkError>
    requires { written_in scope.now ≡ nothing_written }
    ensures { Wrote (flat_map (value_turn (layers_in scope.now))
        (enumerate_from 0 (numbers_of scope.now.source.now values.now)))
        (tells_of O.Sink out.old) (tells_of O.Sink out.new) result }
{
    for k in 0..values.len() {
        let value = node_of(values, k);
        write_value(line, scope, k as u64, value, out)?;
    }
    Ok(())
}

/// Builds the line of a conjunct, before which nothing was written.
fn build_conjunct(line: &mut Line, scope: &Scope<'_>, conjunct: u32) -> Result<(), Memory>
    requires { written_in scope.now ≡ nothing_written }
    ensures { OnOk result (line.new ≡ line.old
        ++ ended_line (conjunct_line (layers_in scope.now) (number_in (terms_in scope.now) conjunct))) }
{
    line.text(b"when ")?;
    push_number(line, scope, conjunct)?;
    line.text(b"\n")
}

/// Puts the line of a conjunct.
fn write_conjunct<O: Sink>(
    line: &mut Line,
    scope: &Scope<'_>,
    conjunct: u32,
    out: &mut O,
) -> Result<(), SinkError>
    requires { written_in scope.now ≡ nothing_written }
    ensures { Wrote (ended_line (conjunct_line (layers_in scope.now) (number_in (terms_in scope.now) conjunct)) ∷ [])
        (tells_of O.Sink out.old) (tells_of O.Sink out.new) result }
{
    line.clear();
    build_conjunct(line, scope, conjunct)?;
    put_line(line.slice(), out)
}

/// Puts the lines of the conjuncts.
fn write_conjuncts<O: Sink>(
    line: &mut Line,
    scope: &Scope<'_>,
    conjuncts: &[u32],
    out: &mut O,
) -> Result<(), SinkError>
    requires { written_in scope.now ≡ nothing_written }
    ensures { Wrote (flat_map (conjunct_turn (layers_in scope.now))
        (enumerate_from 0 (numbers_of scope.now.source.now conjuncts.now)))
        (tells_of O.Sink out.old) (tells_of O.Sink out.new) result }
{
    for k in 0..conjuncts.len() {
        let conjunct = node_of(conjuncts, k);
        write_conjunct(line, scope, conjunct, out)?;
    }
    Ok(())
}

/// The entry values and the conjuncts of a guarded handler, by their nodes.
#[derive(Clone, Copy)]
struct Guard<'a> {
    values: &'a [u32],
    conjuncts: &'a [u32],
}

/// Puts the lines of the entry values and of the conjuncts, before which nothing was written.
#[tactic(auto, using(crate::proofs::Notes::whole_nothing))]
fn write_guard<O: Sink>(
    line: &mut Line,
    stacked: Stacked<'_>,
    written: &Written,
    guard: Guard<'_>,
    out: &mut O,
) -> Result<(), SinkError>
    requires { written_of stacked.stack.now stacked.source.now written.now ≡ nothing_written }
    ensures { Wrote (flat_map (value_turn (stack_tree stacked.entry.stack.now))
        (enumerate_from 0 (numbers_of stacked.entry.source.now guard.entry.values.now))
        ++ flat_map (conjunct_turn (stack_tree stacked.entry.stack.now))
        (enumerate_from 0 (numbers_of stacked.entry.source.now guard.entry.conjuncts.now)))
        (tells_of O.Sink out.old) (tells_of O.Sink out.new) result }
{
    let scope = Scope {
        stack: stacked.stack,
        written,
        source: stacked.source,
        rows: written.rows.len(),
        notes: written.notes.len(),
    };
    write_values(line, &scope, guard.values, out)?;
    write_conjuncts(line, &scope, guard.conjuncts, out)
}

/// Puts the line of an operation, if it has one.
fn write_operation<O: Sink>(
    line: &mut Line,
    stacked: Stacked<'_>,
    written: &mut Written,
    operation: Operation,
    out: &mut O,
) -> Result<(), SinkError>
    requires few { written.old.binds + 1 < 2 ^ 64 }
    requires parts { IsPart (terms (nodes_in stacked.source.now.nodes)) (chains stacked.source.now.links.now)
        operation }
    ensures wrote { Wrote
        (done_lines stacked.entry.source.now.noting (stack_tree stacked.entry.stack.now)
        (written_of stacked.entry.stack.now stacked.entry.source.now written.old)
        (operation_of stacked.entry.source.now operation)) (tells_of O.Sink out.old) (tells_of O.Sink out.new) result }
    ensures written { OnOk result (written_of stacked.entry.stack.now stacked.entry.source.now written.new
        ≡ follows stacked.entry.source.now.noting (stack_tree stacked.entry.stack.now)
        (written_of stacked.entry.stack.now stacked.entry.source.now written.old)
        (operation_of stacked.entry.source.now operation)) }
    ensures few { OnOk result (written.new.binds ≤ written.old.binds + 1) }
{
    line.clear();
    if build_operation(line, stacked.stack, written, stacked.source, operation)? {
        put_line(line.slice(), out)
    } else {
        Ok(())
    }
}

/// An operation.
#[tactic(auto, using(trace_core::proofs::Parts::part_of))]
fn operation_at(source: &Source<'_>, k: usize) -> Operation
    requires there { k < length source.now.operations.now }
    requires parts { are_parts (nodes_in source.now.nodes) source.now.links.now source.now.operations.now ≡ true }
    ensures is { slice_get source.now.operations.now k ≡ Some result }
    ensures parts { IsPart (terms (nodes_in source.now.nodes)) (chains source.now.links.now) result }
{
    source.operations[k]
}

/// Puts the lines of the operations, given what may be named before the first.
fn write_operations<O: Sink>(
    line: &mut Line,
    stacked: Stacked<'_>,
    written: &mut Written,
    out: &mut O,
) -> Result<(), SinkError>
    requires nothing { written_of stacked.stack.now stacked.source.now written.old ≡ nothing_written }
    requires parts { are_parts (nodes_in stacked.source.now.nodes) stacked.source.now.links.now
        stacked.source.now.operations.now ≡ true }
    ensures { Wrote (all_done stacked.entry.source.now.noting (stack_tree stacked.entry.stack.now)
        (operations_in stacked.entry.source.now))
        (tells_of O.Sink out.old) (tells_of O.Sink out.new) result }
{
    for k in 0..stacked.source.operations.len() {
        let operation = operation_at(stacked.source, k);
        write_operation(line, stacked, written, operation, out)?;
    }
    Ok(())
}

/// Puts the lines of entry values, conjuncts and operations.
fn write_parts<O: Sink>(
    pen: &mut Pen,
    stacked: Stacked<'_>,
    guard: Guard<'_>,
    out: &mut O,
) -> Result<(), SinkError>
    requires parts { are_parts (nodes_in stacked.source.now.nodes) stacked.source.now.links.now
        stacked.source.now.operations.now ≡ true }
    requires spelled { stacked.source.now.noting ≡ false }
    ensures { Wrote (ended_lines (guarded_lines (stack_tree stacked.entry.stack.now)
        (handler_in stacked.entry.source.now guard.entry.values.now guard.entry.conjuncts.now)))
        (tells_of O.Sink out.old) (tells_of O.Sink out.new) result }
{
    let mut written = nothing(pen.alloc, stacked.stack, stacked.source);
    write_guard(&mut pen.line, stacked, &written, guard, out)?;
    write_operations(&mut pen.line, stacked, &mut written, out)
}

/// Puts the lines of a guarded handler: its entry values, its conjuncts, and its operations.
pub(crate) fn write_handler<O: Sink>(
    pen: &mut Pen,
    stack: &Stack,
    guarded: &Guarded,
    out: &mut O,
) -> Result<(), SinkError>
    ensures { Wrote (ended_lines (guarded_lines (stack_tree stack.now) (guarded_tree guarded.now)))
        (tells_of O.Sink out.old) (tells_of O.Sink out.new) result }
{
    let source = Source {
        nodes: Nodes::OfHandler(&guarded.nodes),
        links: &guarded.links,
        operations: guarded.operations.as_slice(),
        noting: false,
    };
    let stacked = Stacked {
        stack,
        source: &source,
    };
    let guard = Guard {
        values: guarded.values.as_slice(),
        conjuncts: guarded.conjuncts.as_slice(),
    };
    write_parts(pen, stacked, guard, out)
}

/// Puts the lines of operations whose notes have lines of their own.
fn write_noting<O: Sink>(pen: &mut Pen, stacked: Stacked<'_>, out: &mut O) -> Result<(), SinkError>
    requires parts { are_parts (nodes_in stacked.source.now.nodes) stacked.source.now.links.now
        stacked.source.now.operations.now ≡ true }
    requires noting { stacked.source.now.noting ≡ true }
    ensures { Wrote (ended_lines (operation_lines true (stack_tree stacked.entry.stack.now)
        (operations_in stacked.entry.source.now)))
        (tells_of O.Sink out.old) (tells_of O.Sink out.new) result }
{
    let mut written = nothing(pen.alloc, stacked.stack, stacked.source);
    write_operations(&mut pen.line, stacked, &mut written, out)
}

/// Puts the lines of a trace.
pub(crate) fn write_trace<O: Sink>(
    pen: &mut Pen,
    stack: &Stack,
    trace: &Trace,
    out: &mut O,
) -> Result<(), SinkError>
    ensures { Wrote (ended_lines (operation_lines true (stack_tree stack.now) (trace_tree trace.now)))
        (tells_of O.Sink out.old) (tells_of O.Sink out.new) result }
{
    let source = Source {
        nodes: Nodes::OfTrace(&trace.nodes),
        links: &trace.links,
        operations: trace.operations.as_slice(),
        noting: true,
    };
    let stacked = Stacked {
        stack,
        source: &source,
    };
    write_noting(pen, stacked, out)
}
