//! What is made of cases with the traces of a file.

ghost use Rattle.std.specs.List.{AllByRecursion};
ghost use Rattle.std.specs.Prelude.{◌≤◌, length, map, option_map};
ghost use Rattle.layer_mean.specs.declared.run.Case.TheVariants.{First};
ghost use Rattle.pack_laws.specs.Accepted.{filled_case, second_filled};
ghost use Rattle.stack_shapes.specs.declared.types.TheConstants.{MOST_PLANS};
ghost use Rattle.synth.specs.Cases.{cases_tree};
ghost use Rattle.trace_core.specs.Bypasses.{made_tree};
ghost use Rattle.trace_core.specs.Trees.{trace_tree};
ghost use Rattle.pack_judge.specs.Due.{all_cases, plans_cases};
ghost use Rattle.pack_judge.specs.Filling.{AreSimple, Fills, IsSimple, SecondIsSimple, all_filled, all_owned};
ghost use Rattle.pack_judge.specs.Filling.{cases_filled, cases_owned, made_owned, second_owned};

use crate::due::FIRST_PLAN;
use crate::error::BypassError;
use crate::replace::replace;
use layer_mean::Case;
use std::alloc::Global;
use std::collections::VecDeque;
use trace_core::{Bypasses, Cases, Made, Trace};

/// Puts the next trace of a file in place of the stack's own for a case. Where nothing is made none is due.
fn fill(
    alloc: Global,
    entry: u32,
    case: Case,
    own: &mut Made,
    traces: &mut VecDeque<Trace>,
) -> Result<(), BypassError>
    requires { IsSimple (made_tree own.old) }
    ensures { Fills (made_owned entry case (made_tree own.old))
        (filled_case (made_tree own.old) (map trace_tree traces.old.items))
        (map trace_tree traces.old.items) (map trace_tree traces.new.items) (made_tree own.new) result }
{
    match own {
        Made::Fused(own) => match traces.pop_front() {
            Some(trace) => {
                replace(alloc, entry, case, own, trace)?;
                Ok(())
            }
            None => Ok(()),
        },
        Made::Absent(_) => Ok(()),
    }
}

/// Puts the next trace of a file in place of the stack's own for a second case, where there is one.
fn fill_second(
    alloc: Global,
    entry: u32,
    own: &mut Option<Made>,
    traces: &mut VecDeque<Trace>,
) -> Result<(), BypassError>
    requires { SecondIsSimple (option_map made_tree own.old) }
    ensures { Fills (second_owned entry (option_map made_tree own.old))
        (second_filled (option_map made_tree own.old) (map trace_tree traces.old.items))
        (map trace_tree traces.old.items) (map trace_tree traces.new.items) (option_map made_tree own.new) result }
{
    match own {
        Some(own) => {
            fill(alloc, entry, Case::Second, own, traces)?;
            Ok(())
        }
        None => Ok(()),
    }
}

/// Puts the next traces of a file in place of the stack's own for both cases of an entry, the first case first.
fn fill_cases(
    alloc: Global,
    entry: u32,
    own: &mut Cases,
    traces: &mut VecDeque<Trace>,
) -> Result<(), BypassError>
    requires { AreSimple (cases_tree own.old) }
    ensures { Fills (cases_owned entry (cases_tree own.old))
        (cases_filled (cases_tree own.old) (map trace_tree traces.old.items))
        (map trace_tree traces.old.items) (map trace_tree traces.new.items) (cases_tree own.new) result }
{
    fill(alloc, entry, Case::First, &mut own.first, traces)?;
    fill_second(alloc, entry, &mut own.second, traces)?;
    Ok(())
}

/// Puts the next traces of a file in place of the stack's own for the packets of all plans, in order.
fn fill_plans(
    alloc: Global,
    own: &mut Vec<Cases>,
    traces: &mut VecDeque<Trace>,
) -> Result<(), BypassError>
    requires few { length own.old.items ≤ MOST_PLANS }
    requires simple { AllByRecursion AreSimple (plans_cases own.old) }
    ensures { Fills (all_owned 2 (plans_cases own.old))
        (all_filled (plans_cases own.old) (map trace_tree traces.old.items))
        (map trace_tree traces.old.items) (map trace_tree traces.new.items) (plans_cases own.new) result }
{
    for number in 0..own.len() {
        fill_cases(alloc, FIRST_PLAN + number as u32, &mut own[number], traces)?;
    }
    Ok(())
}

/// Puts the traces of a file in place of those of the stack for all entries, each where it joins no more.
pub(crate) fn fill_all(
    alloc: Global,
    own: &mut Bypasses,
    traces: &mut VecDeque<Trace>,
) -> Result<(), BypassError>
    requires few { length own.old.plans.items ≤ MOST_PLANS }
    requires simple { AllByRecursion AreSimple (all_cases own.old) }
    ensures { Fills (all_owned 0 (all_cases own.old)) (all_filled (all_cases own.old) (map trace_tree traces.old.items))
        (map trace_tree traces.old.items) (map trace_tree traces.new.items) (all_cases own.new) result }
{
    fill_cases(alloc, 0, &mut own.cast, traces)?;
    fill_cases(alloc, 1, &mut own.send, traces)?;
    fill_plans(alloc, &mut own.plans, traces)?;
    Ok(())
}
