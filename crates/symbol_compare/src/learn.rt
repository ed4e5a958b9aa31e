//! What is known after one more operation.

ghost use Rattle.std.specs.Prelude.{◌≡◌, ◌<◌, ◌+◌, OnOk, length};
ghost use Rattle.trace_mean.specs.Trace as trace;
ghost use Rattle.trace_core.specs.Arena.{IsMessage, IsNumber};
ghost use Rattle.trace_core.specs.Links.{chains};
ghost use Rattle.trace_core.specs.Operations.{IsPart, operation_in};
ghost use Rattle.trace_core.specs.View.{message_in, number_in, terms};
ghost use Rattle.symbol_compare.specs.Walk.{Knows, Learns};
ghost use Rattle.symbol_compare.specs.Steps.{Wrote};

use crate::counts::count_write;
use crate::table::Table;
use crate::values::{message, number};
use crate::walk::Walk;
use std::alloc::AllocError;
use trace_core::Operation;

/// A number is bound.
#[tactic(auto, using(crate::proofs::Learning::bind_learns))]
fn bind(table: &mut Table, walk: &mut Walk<'_>, node: u32) -> Result<(), AllocError>
    requires node { IsNumber (terms walk.old.trace.now.nodes) node }
    requires knows { Knows table.old walk.old }
    requires more { walk.old.done < length walk.old.trace.now.operations.items }
    ensures { OnOk result
        (Learns table.old table.new walk.old walk.new (trace.bind (number_in (terms walk.old.trace.now.nodes) node))) }
{
    let value = number(table, walk, node)?;
    walk.numbers.push(value)?;
    walk.done += 1;
    Ok(())
}

/// A message is noted.
#[tactic(auto, using(crate::proofs::Learning::note_learns))]
fn note(table: &mut Table, walk: &mut Walk<'_>, node: u32) -> Result<(), AllocError>
    requires node { IsMessage (terms walk.old.trace.now.nodes) node }
    requires knows { Knows table.old walk.old }
    requires more { walk.old.done < length walk.old.trace.now.operations.items }
    ensures { OnOk result
        (Learns table.old table.new walk.old walk.new (trace.note (message_in (terms walk.old.trace.now.nodes) node))) }
{
    let value = message(table, walk, node)?;
    walk.messages.push(value)?;
    walk.done += 1;
    Ok(())
}

/// A cell is written, after `takes` takes.
fn write(walk: &mut Walk<'_>, place: u8, cell: u8, takes: u32) -> Result<(), AllocError>
    requires more { walk.old.done < length walk.old.trace.now.operations.items }
    ensures { OnOk result (Wrote walk.old walk.new place cell takes) }
{
    count_write(&mut walk.counts, place, cell)?;
    walk.takes = takes;
    walk.done += 1;
    Ok(())
}

/// A row is taken.
fn take(walk: &mut Walk<'_>, place: u8, cell: u8) -> Result<(), AllocError>
    requires more { walk.old.done < length walk.old.trace.now.operations.items }
    ensures { OnOk result (Wrote walk.old walk.new place cell (walk.old.takes + 1)) }
{
    let takes = walk.takes;
    if takes == u32::MAX {
        return Err(AllocError);
    }
    write(walk, place, cell, takes + 1)?;
    Ok(())
}

/// Nothing is learnt.
fn pass(walk: &mut Walk<'_>)
    requires more { walk.old.done < length walk.old.trace.now.operations.items }
    ensures { walk.new ≡ record walk.old { done = walk.old.done + 1 } }
{
    walk.done += 1;
}

/// What is known after an operation.
#[tactic(auto, using(crate::proofs::Rules::of_learn))]
pub(crate) fn learn(
    table: &mut Table,
    walk: &mut Walk<'_>,
    operation: &Operation,
) -> Result<(), AllocError>
    requires there { IsPart (terms walk.old.trace.now.nodes) (chains walk.old.trace.now.links) operation.now }
    requires knows { Knows table.old walk.old }
    requires more { walk.old.done < length walk.old.trace.now.operations.items }
    ensures { OnOk result (Learns table.old table.new walk.old walk.new
        (operation_in (terms walk.old.trace.now.nodes) (chains walk.old.trace.now.links) operation.now)) }
{
    match operation {
        Operation::Bind(node) => {
            bind(table, walk, *node)?;
            Ok(())
        }
        Operation::Note(node) => {
            note(table, walk, *node)?;
            Ok(())
        }
        Operation::Set { place, cell, .. } => {
            let takes = walk.takes;
            write(walk, *place, *cell, takes)?;
            Ok(())
        }
        Operation::SetSquare { place, cell, .. } => {
            let takes = walk.takes;
            write(walk, *place, *cell, takes)?;
            Ok(())
        }
        Operation::Push { place, cell, .. } => {
            let takes = walk.takes;
            write(walk, *place, *cell, takes)?;
            Ok(())
        }
        Operation::Take { place, cell, .. } => {
            take(walk, *place, *cell)?;
            Ok(())
        }
        Operation::Check(_) => {
            pass(walk);
            Ok(())
        }
        Operation::Output { .. } => {
            pass(walk);
            Ok(())
        }
    }
}
