//! Whether two traces do the same.

ghost use Rattle.std.specs.Prelude.{◌≡◌, List, ◌<◌, ◌≤◌, ◌+◌, [], ◌++◌, IfOk, OnOk, length, option_to_list, slice_get};
ghost use Rattle.trace_core.specs.Trees.{trace_tree};
ghost use Rattle.symbol_mean.specs.Symbolic.{symbolic};
ghost use Rattle.symbol_compare.specs.Differ.{Differs, IsSame, SameAt};
ghost use Rattle.symbol_compare.specs.Steps.{ActsMade, Steps, Walked};
ghost use Rattle.symbol_compare.specs.declared.form.ValueForm.{ValueForm};

use crate::acts::act;
use crate::counts::no_counts;
use crate::form::ActForm;
use crate::learn::learn;
use crate::table::Table;
use crate::walk::Walk;
use std::alloc::{AllocError, Global};
use trace_core::Trace;

/// The most acts of a trace.
pub const MOST_ACTS: usize = 16_777_216;

/// One more act, if there is one.
fn add_act(acts: &mut Vec<ActForm>, act: Option<ActForm>) -> Result<(), AllocError>
    ensures { OnOk result (acts.new.items ≡ acts.old.items ++ option_to_list act) }
{
    if let Some(act) = act {
        acts.push(act)?;
    }
    Ok(())
}

/// One more operation of a trace.
#[tactic(auto, using(crate::proofs::Rules::of_step))]
fn step(
    table: &mut Table,
    walk: &mut Walk<'_>,
    acts: &mut Vec<ActForm>,
    turn: usize,
) -> Result<(), AllocError>
    requires turn { walk.old.done ≡ turn }
    requires walked { Walked table.old walk.old acts.old.items }
    requires more { walk.old.done < length walk.old.trace.now.operations.items }
    ensures { OnOk result (Steps table.old table.new walk.old walk.new acts.new.items) }
{
    let operation = walk.trace.operation(turn);
    let made = act(table, walk, &operation)?;
    add_act(acts, made)?;
    learn(table, walk, &operation)?;
    Ok(())
}

/// The acts of all operations of a trace.
fn go(table: &mut Table, walk: &mut Walk<'_>, acts: &mut Vec<ActForm>) -> Result<(), AllocError>
    requires walked { Walked table.old walk.old acts.old.items }
    requires first { walk.old.done ≡ 0 }
    ensures { OnOk result (ActsMade table.old table.new (symbolic (trace_tree walk.old.trace.now)) acts.new.items) }
{
    let many = walk.trace.operations.len();
    for turn in 0..many {
        step(table, walk, acts, turn)?;
    }
    Ok(())
}

/// A trace before its operations.
#[tactic(auto, using(crate::proofs::Learning::begun))]
fn begin<'a>(alloc: Global, trace: &'a Trace) -> Walk<'a>
    ensures trace { result.trace ≡ trace.entry }
    ensures first { result.done ≡ 0 }
    ensures walked { (fs : List ValueForm) → Walked fs result [] }
{
    Walk {
        trace,
        done: 0,
        numbers: Vec::new(alloc),
        messages: Vec::new(alloc),
        takes: 0,
        counts: no_counts(alloc),
    }
}

/// The acts of a trace.
fn acts_of(alloc: Global, table: &mut Table, trace: &Trace) -> Result<Vec<ActForm>, AllocError>
    ensures { IfOk result (λ acts. ActsMade table.old table.new (symbolic (trace_tree trace.now)) acts.items) }
{
    let mut walk = begin(alloc, trace);
    let mut acts = Vec::new(alloc);
    go(table, &mut walk, &mut acts)?;
    Ok(acts)
}

/// The act at a place, if there is one.
fn act_at(acts: &[ActForm], place: usize) -> Option<ActForm>
    ensures { result ≡ slice_get acts.now place }
{
    acts.get(place).copied()
}

/// Whether two acts are the same.
#[tactic(auto, using(crate::proofs::Differing::acts_told))]
fn is_act(act: ActForm, other: ActForm) -> bool
    ensures { IsSame act other result }
{
    act == other
}

/// Whether two lists have the same act at a place.
#[tactic(auto, using(crate::proofs::Differing::same_there, crate::proofs::Differing::none_there))]
fn is_same(acts: &[ActForm], own: &[ActForm], place: usize) -> bool
    requires { place < length acts.now }
    ensures { SameAt acts.now own.now place result }
{
    match act_at(own, place) {
        Some(other) => is_act(acts[place], other),
        None => false,
    }
}

/// The first place at which two lists of acts differ.
#[tactic(auto, using(crate::proofs::Rules::of_first_apart))]
fn first_apart(acts: &[ActForm], own: &[ActForm]) -> Option<usize>
    ensures { Differs acts.now own.now result }
{
    let many = acts.len();
    for place in 0..many {
        if !is_same(acts, own, place) {
            return Some(place);
        }
    }
    if many < own.len() { Some(many) } else { None }
}

/// The first act at which two traces do something else; None where they do the same throughout.
pub fn first_difference(
    alloc: Global,
    trace: &Trace,
    own: &Trace,
) -> Result<Option<u32>, AllocError>
    ensures { IfOk result (λ place. Differs (symbolic (trace_tree trace.now)) (symbolic (trace_tree own.now)) place) }
{
    let mut table = Table::new(alloc);
    let acts = acts_of(alloc, &mut table, trace)?;
    let own_acts = acts_of(alloc, &mut table, own)?;
    table.law_sound();
    match first_apart(acts.as_slice(), own_acts.as_slice()) {
        None => Ok(None),
        Some(place) => {
            if place > MOST_ACTS {
                return Err(AllocError);
            }
            Ok(Some(place as u32))
        }
    }
}
