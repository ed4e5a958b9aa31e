//! The values of a trace's expressions, put into a table.

ghost use Rattle.std.specs.Prelude.{◌≡◌, ◌<◌, ◌≤◌, ◌+◌, length, map, slice_get, slice_index_or, take};
ghost use Rattle.msg_core.specs.Headers.{most_fields};
ghost use Rattle.trace_core.specs.Arena.{IsMessage, IsNumber};
ghost use Rattle.trace_core.specs.Operations.{AllNumbers};
ghost use Rattle.trace_core.specs.View.{atom_tree, core_tree, message_in, number_in, terms};
ghost use Rattle.symbol_mean.specs.Value as value;
ghost use Rattle.symbol_mean.specs.Symbolic.{atom_value, core_value, message_value, number_value};
ghost use Rattle.symbol_compare.specs.Meant.{a_message, a_number};
ghost use Rattle.symbol_compare.specs.Parts.{AreBelow};
ghost use Rattle.symbol_compare.specs.Leaves.{taken_message_form, taken_number_form};
ghost use Rattle.symbol_compare.specs.Table.{Makes};
ghost use Rattle.symbol_compare.specs.Walk.{Knows, MakesAll, MakesNumbers, known_to, meant_at};

use crate::form::{MessageForm, NumberForm, ValueForm};
use crate::parts::{form_of, parts_of, sort_of};
use crate::sort::Sort;
use crate::table::Table;
use crate::walk::Walk;
use msg_core::Fields;
use std::alloc::AllocError;
use trace_core::{Atom, Core, Load};

/// The value of a bound number.
fn bound_at(walk: &Walk<'_>, number: u32) -> Option<u32>
    ensures { result ≡ slice_get walk.now.numbers.items number }
{
    walk.numbers.get(number as usize).copied()
}

/// The value of a noted message.
fn noted_at(walk: &Walk<'_>, message: u32) -> Option<u32>
    ensures { result ≡ slice_get walk.now.messages.items message }
{
    walk.messages.get(message as usize).copied()
}

/// The form of a number of a row, after `takes` takes.
fn taken_number_form(takes: u32, row: u32, number: u8) -> NumberForm
    ensures { result ≡ taken_number_form takes row number }
{
    if row < takes {
        NumberForm::Taken { row, number }
    } else {
        NumberForm::Untaken(number)
    }
}

/// The form of the message of a row, after `takes` takes.
fn taken_message_form(takes: u32, row: u32, load: Load) -> MessageForm
    ensures { result ≡ taken_message_form takes row load }
{
    if row < takes {
        MessageForm::Taken { row, load }
    } else {
        MessageForm::Untaken(load)
    }
}

/// A number that is bound, 0 where it isn't.
#[tactic(auto, using(crate::proofs::Leaves::bound_known, crate::proofs::Leaves::bound_unknown))]
fn bound_value(table: &mut Table, walk: &Walk<'_>, number: u32) -> Result<u32, AllocError>
    requires { Knows table.old walk.now }
    ensures { Makes table.old table.new (a_number (slice_index_or (known_to walk.now).numbers number (value.number 0)))
        result }
{
    match bound_at(walk, number) {
        Some(value) => Ok(value),
        None => {
            let made = table.put(ValueForm::Number(NumberForm::Number(0)))?;
            Ok(made)
        }
    }
}

/// A message that is noted, no bytes where it isn't.
#[tactic(auto, using(crate::proofs::Leaves::noted_known, crate::proofs::Leaves::noted_unknown))]
fn noted_value(table: &mut Table, walk: &Walk<'_>, message: u32) -> Result<u32, AllocError>
    requires { Knows table.old walk.now }
    ensures { Makes table.old table.new (a_message (slice_index_or (known_to walk.now).messages message value.nothing))
        result }
{
    match noted_at(walk, message) {
        Some(value) => Ok(value),
        None => {
            let made = table.put(ValueForm::Message(MessageForm::Nothing))?;
            Ok(made)
        }
    }
}

/// A number that no cell is read for.
#[tactic(auto, using(crate::proofs::Leaves::taken_number_made, crate::proofs::Leaves::taken_number_well))]
pub(crate) fn atom_value(table: &mut Table, walk: &Walk<'_>, atom: Atom) -> Result<u32, AllocError>
    requires { Knows table.old walk.now }
    ensures { Makes table.old table.new (a_number (atom_value (known_to walk.now) (atom_tree atom))) result }
{
    match atom {
        Atom::Number(number) => {
            let made = table.put(ValueForm::Number(NumberForm::Number(number)))?;
            Ok(made)
        }
        Atom::Peer => {
            let made = table.put(ValueForm::Number(NumberForm::Peer))?;
            Ok(made)
        }
        Atom::Field(number) => {
            let made = table.put(ValueForm::Number(NumberForm::Field(number)))?;
            Ok(made)
        }
        Atom::Bound(number) => {
            let made = bound_value(table, walk, number)?;
            Ok(made)
        }
        Atom::Taken { row, number } => {
            let form = taken_number_form(walk.takes, row, number);
            let made = table.put(ValueForm::Number(form))?;
            Ok(made)
        }
        Atom::Value(_) => {
            let made = table.put(ValueForm::Number(NumberForm::Number(0)))?;
            Ok(made)
        }
    }
}

/// A message that no cell is read for, without its known headers.
#[tactic(auto, using(crate::proofs::Leaves::taken_message_made, crate::proofs::Leaves::taken_message_well))]
pub(crate) fn core_value(table: &mut Table, walk: &Walk<'_>, core: Core) -> Result<u32, AllocError>
    requires { Knows table.old walk.now }
    ensures { Makes table.old table.new (a_message (core_value (known_to walk.now) (core_tree core))) result }
{
    match core {
        Core::Body => {
            let made = table.put(ValueForm::Message(MessageForm::Body))?;
            Ok(made)
        }
        Core::Noted(message) => {
            let made = noted_value(table, walk, message)?;
            Ok(made)
        }
        Core::Taken { row, load } => {
            let form = taken_message_form(walk.takes, row, load);
            let made = table.put(ValueForm::Message(form))?;
            Ok(made)
        }
        Core::Nothing => {
            let made = table.put(ValueForm::Message(MessageForm::Nothing))?;
            Ok(made)
        }
    }
}

/// What a node means.
#[cycle(values)]
fn node_value(table: &mut Table, walk: &Walk<'_>, node: u32) -> Result<u32, AllocError>
    requires there { node < length walk.now.trace.now.nodes }
    requires knows { Knows table.old walk.now }
    ensures { Makes table.old table.new (meant_at walk.now node) result }
{
    let read = walk.trace.nodes.node(node);
    match sort_of(read) {
        Sort::Number(atom) => {
            let made = atom_value(table, walk, atom)?;
            Ok(made)
        }
        Sort::Message(core) => {
            let made = core_value(table, walk, core)?;
            Ok(made)
        }
        Sort::Parts => {
            let parts = parts_of(read);
            let many = parts.len();
            let made = node_values(table, walk, node, &parts, many)?;
            let form = form_of(read, &walk.counts, &made);
            let number = table.put(form)?;
            Ok(number)
        }
    }
}

/// What the first `many` of some nodes mean; all of them are below another one.
#[cycle(values)]
fn node_values(
    table: &mut Table,
    walk: &Walk<'_>,
    above: u32,
    parts: &Fields,
    many: u32,
) -> Result<Fields, AllocError>
    requires there { above ≤ length walk.now.trace.now.nodes }
    requires below { AreBelow above parts.now }
    requires few { length parts.now ≤ most_fields }
    requires many { many ≤ length parts.now }
    requires knows { Knows table.old walk.now }
    ensures { MakesAll table.old table.new (map (meant_at walk.now) (take many parts.now)) many result }
{
    if many == 0 {
        return Ok(Fields::new());
    }
    let mut made = node_values(table, walk, above, parts, many - 1)?;
    let next = node_value(table, walk, parts.at(many - 1))?;
    made.push(next);
    Ok(made)
}

/// The number of a node.
#[tactic(auto, using(crate::proofs::Valued::number_within, crate::proofs::Valued::number_of_node))]
pub(crate) fn number(table: &mut Table, walk: &Walk<'_>, node: u32) -> Result<u32, AllocError>
    requires node { IsNumber (terms walk.now.trace.now.nodes) node }
    requires knows { Knows table.old walk.now }
    ensures { Makes table.old table.new
        (a_number (number_value (known_to walk.now) (number_in (terms walk.now.trace.now.nodes) node))) result }
{
    let made = node_value(table, walk, node)?;
    Ok(made)
}

/// The message of a node.
#[tactic(auto, using(crate::proofs::Valued::message_within, crate::proofs::Valued::message_of_node))]
pub(crate) fn message(table: &mut Table, walk: &Walk<'_>, node: u32) -> Result<u32, AllocError>
    requires node { IsMessage (terms walk.now.trace.now.nodes) node }
    requires knows { Knows table.old walk.now }
    ensures { Makes table.old table.new
        (a_message (message_value (known_to walk.now) (message_in (terms walk.now.trace.now.nodes) node))) result }
{
    let made = node_value(table, walk, node)?;
    Ok(made)
}

/// The numbers of some nodes.
#[tactic(auto, using(crate::proofs::Valued::numbers_below, crate::proofs::Valued::numbers_of_nodes))]
pub(crate) fn numbers(
    table: &mut Table,
    walk: &Walk<'_>,
    nodes: &Fields,
) -> Result<Fields, AllocError>
    requires nodes { AllNumbers (terms walk.now.trace.now.nodes) nodes.now }
    requires knows { Knows table.old walk.now }
    ensures { MakesNumbers table.old table.new
        (map (number_value (known_to walk.now)) (map (number_in (terms walk.now.trace.now.nodes)) nodes.now)) result }
{
    let many = nodes.len();
    let made = node_values(table, walk, walk.trace.nodes.count(), nodes, many)?;
    Ok(made)
}
