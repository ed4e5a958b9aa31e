//! What the operations of a trace do, with numbers of values.

ghost use Rattle.trace_core.specs.Links.{chains};
ghost use Rattle.trace_core.specs.Operations.{HasChain, IsPart, operation_in};
ghost use Rattle.trace_core.specs.declared.operation.Operation.TheVariants as operations;
ghost use Rattle.trace_core.specs.View.{terms};
ghost use Rattle.symbol_mean.specs.Symbolic.{act_of};
ghost use Rattle.symbol_compare.specs.Walk.{Knows, MakesAct, known_to};

use crate::form::ActForm;
use crate::sending::{atom_row, row, sending};
use crate::table::Table;
use crate::values::{number, numbers};
use crate::walk::Walk;
use layer_words::{Dir, Kind};
use msg_core::Fields;
use std::alloc::AllocError;
use trace_core::{Atoms, Chained, Operation};

/// A cell of a layer with the node of an index: one of its numbers, or a queue.
#[derive(Clone, Copy)]
struct Spot {
    place: u8,
    cell: u8,
    index: u32,
}

/// A number of a square cell, at the nodes of its indexes.
#[derive(Clone, Copy)]
struct Square {
    place: u8,
    cell: u8,
    row: u32,
    column: u32,
}

/// Where an event goes, and of which kind it is.
#[derive(Clone, Copy)]
struct Way {
    dir: Dir,
    kind: Kind,
}

/// Sets a number of a cell.
fn set_act(
    table: &mut Table,
    walk: &Walk<'_>,
    spot: Spot,
    item: u32,
) -> Result<Option<ActForm>, AllocError>
    requires there { IsPart (terms walk.now.trace.now.nodes) (chains walk.now.trace.now.links)
        (operations.Set spot.place spot.cell spot.index item) }
    requires knows { Knows table.old walk.now }
    ensures { MakesAct table.old table.new (act_of (known_to walk.now)
        (operation_in (terms walk.now.trace.now.nodes) (chains walk.now.trace.now.links)
        (operations.Set spot.place spot.cell spot.index item))) result }
{
    let index = number(table, walk, spot.index)?;
    let value = number(table, walk, item)?;
    Ok(Some(ActForm::Set {
        place: spot.place,
        cell: spot.cell,
        index,
        value,
    }))
}

/// Sets a number of a square cell.
fn square_act(
    table: &mut Table,
    walk: &Walk<'_>,
    square: Square,
    item: u32,
) -> Result<Option<ActForm>, AllocError>
    requires there { IsPart (terms walk.now.trace.now.nodes) (chains walk.now.trace.now.links)
        (operations.SetSquare square.place square.cell square.row square.column item) }
    requires knows { Knows table.old walk.now }
    ensures { MakesAct table.old table.new (act_of (known_to walk.now)
        (operation_in (terms walk.now.trace.now.nodes) (chains walk.now.trace.now.links)
        (operations.SetSquare square.place square.cell square.row square.column item))) result }
{
    let row = number(table, walk, square.row)?;
    let column = number(table, walk, square.column)?;
    let value = number(table, walk, item)?;
    Ok(Some(ActForm::SetSquare {
        place: square.place,
        cell: square.cell,
        row,
        column,
        value,
    }))
}

/// Puts a row at the back of a queue.
#[tactic(auto, using(crate::proofs::Rules::of_push_act))]
fn push_act(
    table: &mut Table,
    walk: &Walk<'_>,
    queue: Spot,
    nodes: &Fields,
    sent: Option<Chained>,
) -> Result<Option<ActForm>, AllocError>
    requires there { IsPart (terms walk.now.trace.now.nodes) (chains walk.now.trace.now.links)
        (operations.Push queue.place queue.cell queue.index nodes.now sent) }
    requires knows { Knows table.old walk.now }
    ensures { MakesAct table.old table.new (act_of (known_to walk.now)
        (operation_in (terms walk.now.trace.now.nodes) (chains walk.now.trace.now.links)
        (operations.Push queue.place queue.cell queue.index nodes.now sent))) result }
{
    let index = number(table, walk, queue.index)?;
    let values = numbers(table, walk, nodes)?;
    let numbers = row(table, &values)?;
    let message = sending(table, walk, sent)?;
    Ok(Some(ActForm::Push {
        place: queue.place,
        cell: queue.cell,
        index,
        numbers,
        message,
    }))
}

/// Sends an event.
#[tactic(auto, using(crate::proofs::Acting::output_made, crate::proofs::Growing::knows_made))]
fn output_act(
    table: &mut Table,
    walk: &Walk<'_>,
    way: Way,
    atoms: &Atoms,
    sent: Option<Chained>,
) -> Result<Option<ActForm>, AllocError>
    requires there { HasChain (chains walk.now.trace.now.links) sent }
    requires knows { Knows table.old walk.now }
    ensures { MakesAct table.old table.new (act_of (known_to walk.now)
        (operation_in (terms walk.now.trace.now.nodes) (chains walk.now.trace.now.links)
        (operations.Output way.dir way.kind atoms.now sent))) result }
{
    let numbers = atom_row(table, walk, atoms)?;
    let message = sending(table, walk, sent)?;
    Ok(Some(ActForm::Output {
        dir: way.dir,
        kind: way.kind,
        numbers,
        message,
    }))
}

/// Asks whether a number isn't 0.
#[tactic(auto, using(crate::proofs::Acting::check_made))]
fn check_act(table: &mut Table, walk: &Walk<'_>, node: u32) -> Result<Option<ActForm>, AllocError>
    requires there { IsPart (terms walk.now.trace.now.nodes) (chains walk.now.trace.now.links) (operations.Check node) }
    requires knows { Knows table.old walk.now }
    ensures { MakesAct table.old table.new (act_of (known_to walk.now)
        (operation_in (terms walk.now.trace.now.nodes) (chains walk.now.trace.now.links) (operations.Check node)))
        result }
{
    let condition = number(table, walk, node)?;
    Ok(Some(ActForm::Check(condition)))
}

/// Takes a row from the front of a queue.
#[tactic(auto, using(crate::proofs::Acting::take_made))]
fn got_act(table: &mut Table, walk: &Walk<'_>, queue: Spot) -> Result<Option<ActForm>, AllocError>
    requires there { IsPart (terms walk.now.trace.now.nodes) (chains walk.now.trace.now.links)
        (operations.Take queue.place queue.cell queue.index) }
    requires knows { Knows table.old walk.now }
    ensures { MakesAct table.old table.new (act_of (known_to walk.now)
        (operation_in (terms walk.now.trace.now.nodes) (chains walk.now.trace.now.links)
        (operations.Take queue.place queue.cell queue.index))) result }
{
    let index = number(table, walk, queue.index)?;
    Ok(Some(ActForm::Take {
        place: queue.place,
        cell: queue.cell,
        index,
    }))
}

/// What an operation does, if it doesn't bind or note.
#[tactic(auto, using(crate::proofs::Acting::no_act))]
pub(crate) fn act(
    table: &mut Table,
    walk: &Walk<'_>,
    operation: &Operation,
) -> Result<Option<ActForm>, AllocError>
    requires there { IsPart (terms walk.now.trace.now.nodes) (chains walk.now.trace.now.links) operation.now }
    requires knows { Knows table.old walk.now }
    ensures { MakesAct table.old table.new (act_of (known_to walk.now)
        (operation_in (terms walk.now.trace.now.nodes) (chains walk.now.trace.now.links) operation.now)) result }
{
    match *operation {
        Operation::Bind(_) => Ok(None),
        Operation::Note(_) => Ok(None),
        Operation::Check(node) => check_act(table, walk, node),
        Operation::Set {
            place,
            cell,
            index,
            value,
        } => set_act(table, walk, Spot { place, cell, index }, value),
        Operation::SetSquare {
            place,
            cell,
            row,
            column,
            value,
        } => {
            let square = Square {
                place,
                cell,
                row,
                column,
            };
            square_act(table, walk, square, value)
        }
        Operation::Push {
            place,
            cell,
            index,
            numbers,
            message,
        } => push_act(table, walk, Spot { place, cell, index }, &numbers, message),
        Operation::Take { place, cell, index } => got_act(table, walk, Spot { place, cell, index }),
        Operation::Output {
            dir,
            kind,
            numbers,
            message,
        } => output_act(table, walk, Way { dir, kind }, &numbers, message),
    }
}
