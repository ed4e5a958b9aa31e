//! What is stored and sent, put into a table: rows of numbers, chains of known headers, and messages after these.

ghost use Rattle.std.specs.Prelude.{◌≡◌, ◌+◌, ◌≤◌, Some, drop, length, map, option_map, slice_index_or, take};
ghost use Rattle.msg_core.specs.Headers.{most_fields};
ghost use Rattle.trace_core.specs.Kept.{zero_atom};
ghost use Rattle.trace_core.specs.Links as links;
ghost use Rattle.trace_core.specs.Links.{chains};
ghost use Rattle.trace_core.specs.Operations.{HasChain, chained_in};
ghost use Rattle.trace_core.specs.View.{atom_tree};
ghost use Rattle.symbol_mean.specs.Symbolic.{atom_value, chained_value, link_value};
ghost use Rattle.symbol_compare.specs.Meant.{a_chain, a_row, a_sending, meanings, number_in};
ghost use Rattle.symbol_compare.specs.Table.{Makes};
ghost use Rattle.symbol_compare.specs.Walk.{AllNumbers, Knows, MakesNumbers, MakesSome, known_to};

use crate::form::{SentForm, ValueForm};
use crate::table::Table;
use crate::values::{atom_value, core_value};
use crate::walk::Walk;
use msg_core::Fields;
use std::alloc::AllocError;
use trace_core::{Atom, Atoms, Chained};

/// The atom of a number; 0 where there is none.
#[tactic(auto, using(crate::proofs::Sent::no_atom))]
fn atom_at(atoms: &Atoms, number: u32) -> Atom
    ensures { result ≡ slice_index_or atoms.now number zero_atom }
{
    match atoms.get(number) {
        Some(atom) => atom,
        None => Atom::Number(0),
    }
}

/// The values of the first `many` of some atoms.
fn atom_values(
    table: &mut Table,
    walk: &Walk<'_>,
    atoms: &Atoms,
    many: u32,
) -> Result<Fields, AllocError>
    requires few { length atoms.now ≤ most_fields }
    requires many { many ≤ length atoms.now }
    requires knows { Knows table.old walk.now }
    ensures { MakesSome table.old table.new (map (atom_value (known_to walk.now)) (map atom_tree (take many atoms.now)))
        many result }
{
    if many == 0 {
        return Ok(Fields::new());
    }
    let mut made = atom_values(table, walk, atoms, many - 1)?;
    let next = atom_value(table, walk, atom_at(atoms, many - 1))?;
    made.push(next);
    Ok(made)
}

/// The row of some numbers, without the first `first` of them.
#[tactic(auto, using(crate::proofs::Rules::of_row_after))]
fn row_after(table: &mut Table, numbers: &Fields, first: u32) -> Result<u32, AllocError>
    requires numbers { AllNumbers (meanings table.old) numbers.now }
    ensures { Makes table.old table.new (a_row (map (number_in (meanings table.old)) (drop first numbers.now))) result }
{
    if first >= numbers.len() {
        let made = table.put(ValueForm::Sent(SentForm::NoNumbers))?;
        return Ok(made);
    }
    let rest = row_after(table, numbers, first + 1)?;
    let made = table.put(ValueForm::Sent(SentForm::Numbers {
        first: numbers.at(first),
        rest,
    }))?;
    Ok(made)
}

/// The row of some numbers.
pub(crate) fn row(table: &mut Table, numbers: &Fields) -> Result<u32, AllocError>
    requires numbers { AllNumbers (meanings table.old) numbers.now }
    ensures { Makes table.old table.new (a_row (map (number_in (meanings table.old)) numbers.now)) result }
{
    let made = row_after(table, numbers, 0)?;
    Ok(made)
}

/// The row of some atoms.
#[tactic(auto, using(crate::proofs::Sent::all_numbers, crate::proofs::Sent::row_of_numbers))]
pub(crate) fn atom_row(table: &mut Table, walk: &Walk<'_>, atoms: &Atoms) -> Result<u32, AllocError>
    requires knows { Knows table.old walk.now }
    ensures { Makes table.old table.new (a_row (map (atom_value (known_to walk.now)) (map atom_tree atoms.now)))
        result }
{
    let many = atoms.len();
    let values = atom_values(table, walk, atoms, many)?;
    let made = row(table, &values)?;
    Ok(made)
}

/// A chain of known headers.
#[tactic(auto, using(crate::proofs::Rules::of_chain))]
fn chain(table: &mut Table, walk: &Walk<'_>, number: u32) -> Result<u32, AllocError>
    requires there { links.IsChain (chains walk.now.trace.now.links) number }
    requires knows { Knows table.old walk.now }
    ensures { Makes table.old table.new
        (a_chain (map (link_value (known_to walk.now)) (links.chain_in (chains walk.now.trace.now.links) number)))
        result }
{
    match walk.trace.links.front(number) {
        None => {
            let made = table.put(ValueForm::Sent(SentForm::NoLinks))?;
            Ok(made)
        }
        Some(link) => {
            let rest = chain(table, walk, link.rest)?;
            let fields = atom_row(table, walk, &link.fields)?;
            let made = table.put(ValueForm::Sent(SentForm::Link {
                place: link.place,
                tag: link.tag,
                fields,
                rest,
            }))?;
            Ok(made)
        }
    }
}

/// A message after known headers.
#[tactic(auto, using(crate::proofs::Rules::of_sent_message))]
fn sent_message(table: &mut Table, walk: &Walk<'_>, sent: Chained) -> Result<u32, AllocError>
    requires there { links.IsChain (chains walk.now.trace.now.links) sent.chain }
    requires knows { Knows table.old walk.now }
    ensures { Makes table.old table.new
        (a_sending (Some (chained_value (known_to walk.now) (chained_in (chains walk.now.trace.now.links) sent))))
        result }
{
    let chain = chain(table, walk, sent.chain)?;
    let message = core_value(table, walk, sent.core)?;
    let made = table.put(ValueForm::Sent(SentForm::Message { chain, message }))?;
    Ok(made)
}

/// What is sent or stored beside numbers, if anything.
pub(crate) fn sending(
    table: &mut Table,
    walk: &Walk<'_>,
    sent: Option<Chained>,
) -> Result<u32, AllocError>
    requires there { HasChain (chains walk.now.trace.now.links) sent }
    requires knows { Knows table.old walk.now }
    ensures { Makes table.old table.new
        (a_sending (option_map (chained_value (known_to walk.now))
        (option_map (chained_in (chains walk.now.trace.now.links)) sent))) result }
{
    match sent {
        None => {
            let made = table.put(ValueForm::Sent(SentForm::Nothing))?;
            Ok(made)
        }
        Some(sent) => {
            let made = sent_message(table, walk, sent)?;
            Ok(made)
        }
    }
}
