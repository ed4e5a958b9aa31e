//! What is asked of an entry in both cases.

ghost use Rattle.std.specs.Prelude.{◌≡◌, IfOk, map, option_map};
ghost use Rattle.std.specs.List.{slice_get};
ghost use Rattle.guard_checks.specs.Trees.{asked_for, entry_asked};

use crate::asked::{Asked, case_asked, second_asked};
use std::alloc::{AllocError, Global};
use trace_core::Cases;

/// What is asked of an entry in its first case, and in its second, where it has one.
#[derive(Drop)]
pub(crate) struct CaseChecks {
    pub first: Asked,
    pub second: Option<Asked>,
}

/// What is asked of an entry.
pub(crate) fn case_checks(alloc: Global, cases: &Cases) -> Result<CaseChecks, AllocError>
    ensures { IfOk result (λ c. entry_asked c ≡ asked_for cases.now) }
{
    let first = case_asked(alloc, &cases.first)?;
    let second = second_asked(alloc, &cases.second)?;
    Ok(CaseChecks { first, second })
}

/// What is asked of a plan's packet, if there is such a plan.
pub(crate) fn of_plan(plans: &[CaseChecks], number: u8) -> Option<&CaseChecks>
    ensures { option_map (λ c. entry_asked c.now) result ≡ slice_get (map entry_asked plans.now) number }
{
    plans.get(usize::from(number))
}

/// What is asked of entries, in their order.
pub(crate) fn all_checks(alloc: Global, all: &[Cases]) -> Result<Vec<CaseChecks>, AllocError>
    ensures { IfOk result (λ checks. map entry_asked checks.items ≡ map asked_for all.now) }
{
    let mut checks = Vec::with_capacity(alloc, all.len())?;
    for cases in all {
        checks.push(case_checks(alloc, cases)?)?;
    }
    Ok(checks)
}
