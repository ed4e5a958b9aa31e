//! How much traces join.

ghost use Rattle.std.specs.Prelude.{◌≡◌, IfOk, min, nat_le};
ghost use Rattle.trace_core.specs.Arena.{IsMessage};
ghost use Rattle.trace_core.specs.Links.{chains};
ghost use Rattle.trace_core.specs.Operations.{IsPart, operation_in};
ghost use Rattle.trace_core.specs.Trees.{trace_tree};
ghost use Rattle.trace_core.specs.View.{message_in, terms};
ghost use Rattle.trace_mean.specs.Counts.{message_joins, note_joins, trace_joins};

use std::alloc::AllocError;
use trace_core::{Arena, Node, Operation, Trace};

/// The joins of a message, as far as 32 bits hold the number.
#[tactic(auto, using(trace_core::proofs::Makes::message_below))]
fn message_joins(nodes: &Arena, message: u32) -> u32
    requires { IsMessage (terms nodes.now) message }
    ensures { result ≡ min (message_joins (message_in (terms nodes.now) message)) 4294967295 }
{
    match nodes.node(message) {
        Node::Cut { message, .. } => message_joins(nodes, message),
        Node::Tail { message, .. } => message_joins(nodes, message),
        Node::Join { first, second } => {
            let joins = message_joins(nodes, first).saturating_add(message_joins(nodes, second));
            joins.saturating_add(1)
        }
        _ => 0,
    }
}

/// Those of an operation: of what it notes.
fn note_joins(trace: &Trace, operation: &Operation) -> u32
    requires { IsPart (terms trace.now.nodes) (chains trace.now.links) operation.now }
    ensures { result ≡ min (note_joins (operation_in (terms trace.now.nodes) (chains trace.now.links) operation.now))
        4294967295 }
{
    match operation {
        Operation::Note(message) => message_joins(&trace.nodes, *message),
        _ => 0,
    }
}

/// The joins of a trace, as far as 32 bits hold the number.
#[tactic(auto, using(crate::proofs::Joining::one_more))]
fn trace_joins(trace: &Trace) -> u32
    ensures { result ≡ min (trace_joins (trace_tree trace.now)) 4294967295 }
{
    let mut joins: u32 = 0;
    for number in 0..trace.operations.len() {
        joins = joins.saturating_add(note_joins(trace, &trace.operation(number)));
    }
    joins
}

/// Whether a trace joins no more than the stack's own. Err comes where that joins 4,294,967,295 times or more.
pub(crate) fn joins_no_more(trace: &Trace, own: &Trace) -> Result<bool, AllocError>
    ensures { IfOk result
        (λ few. few ≡ nat_le (trace_joins (trace_tree trace.now)) (trace_joins (trace_tree own.now))) }
{
    let most = trace_joins(own);
    if most == u32::MAX {
        return Err(AllocError);
    }
    Ok(trace_joins(trace) <= most)
}
