//! The cases that a file has to hold.

ghost use Rattle.std.specs.Prelude.{◌≡◌, ◌≤◌, ◌∷◌, ◌++◌, IfOk, OnOk, length, map, option_map};
ghost use Rattle.stack_shapes.specs.declared.types.TheConstants.{MOST_PLANS};
ghost use Rattle.synth.specs.Cases.{cases_tree};
ghost use Rattle.trace_core.specs.Bypasses.{made_tree};
ghost use Rattle.pack_read.specs.Files.{bare, due_tree};
ghost use Rattle.pack_judge.specs.Due.{all_cases, all_due, cases_due, count_varying, made_due, plan_varying};
ghost use Rattle.pack_judge.specs.Due.{second_due};

use layer_mean::Case;
use pack_read::Due;
use stack_shapes::Plan;
use std::alloc::{AllocError, Global};
use trace_core::{Bypasses, Cases, Made};

/// The number of the entry of the first plan's packet.
pub(crate) const FIRST_PLAN: u32 = 2;

/// How many of some fields vary. Err comes where more than 4,294,967,295 do.
fn varying(fields: &[Option<u32>]) -> Result<u32, AllocError>
    ensures { IfOk result (λ n. n ≡ count_varying fields.now) }
{
    let many = fields.iter().filter(|field| field.is_none()).count();
    match u32::try_from(many) {
        Ok(many) => Ok(many),
        Err(_) => Err(AllocError),
    }
}

/// A case of an entry, where it is due.
fn made_due(
    due: &mut Vec<Due>,
    entry: u32,
    fields: u32,
    case: Case,
    own: &Made,
) -> Result<(), AllocError>
    ensures { OnOk result
        (map due_tree due.new.items ≡ map due_tree due.old.items ++
        map bare (made_due entry fields case (made_tree own.now))) }
{
    match own {
        Made::Fused(_) => {
            due.push(Due {
                entry,
                case,
                fields,
            })?;
            Ok(())
        }
        Made::Absent(_) => Ok(()),
    }
}

/// A second case, where there is one and it is due.
fn second_due(
    due: &mut Vec<Due>,
    entry: u32,
    fields: u32,
    own: &Option<Made>,
) -> Result<(), AllocError>
    ensures { OnOk result (map due_tree due.new.items
        ≡ map due_tree due.old.items ++ map bare (second_due entry fields (option_map made_tree own.now))) }
{
    match own {
        Some(own) => {
            made_due(due, entry, fields, Case::Second, own)?;
            Ok(())
        }
        None => Ok(()),
    }
}

/// The cases of an entry that are due.
fn cases_due(due: &mut Vec<Due>, entry: u32, fields: u32, own: &Cases) -> Result<(), AllocError>
    ensures { OnOk result
        (map due_tree due.new.items ≡ map due_tree due.old.items ++
        map bare (cases_due entry fields (cases_tree own.now))) }
{
    made_due(due, entry, fields, Case::First, &own.first)?;
    second_due(due, entry, fields, &own.second)?;
    Ok(())
}

/// Those of all plans' packets.
fn plans_due(due: &mut Vec<Due>, plans: &[Plan], own: &[Cases]) -> Result<(), AllocError>
    requires few { length plans.now ≤ MOST_PLANS }
    requires each { length own.now ≡ length plans.now }
    ensures { OnOk result (map due_tree due.new.items
        ≡ map due_tree due.old.items ++ map bare (all_due 2 (map plan_varying plans.now) (map cases_tree own.now))) }
{
    for number in 0..plans.len() {
        let fields = varying(plans[number].fields.as_slice())?;
        cases_due(due, FIRST_PLAN + number as u32, fields, &own[number])?;
    }
    Ok(())
}

/// All cases of a stack that are due, by its plans and what is made of its entries.
pub(crate) fn all_due(alloc: Global, plans: &[Plan], own: &Bypasses) -> Result<Vec<Due>, AllocError>
    requires few { length plans.now ≤ MOST_PLANS }
    requires each { length own.now.plans.items ≡ length plans.now }
    ensures { IfOk result
        (λ due. map due_tree due.items ≡
        map bare (all_due 0 (0 ∷ 0 ∷ map plan_varying plans.now) (all_cases own.now))) }
{
    let mut due = Vec::new(alloc);
    cases_due(&mut due, 0, 0, &own.cast)?;
    cases_due(&mut due, 1, 0, &own.send)?;
    plans_due(&mut due, plans, own.plans.as_slice())?;
    Ok(due)
}
