//! What is asked of what is made of an entry.

ghost use Rattle.std.specs.Prelude.{◌≡◌, IfOk, option_map};
ghost use Rattle.guard_laws.specs.LastCheck.{to_last_check};
ghost use Rattle.guard_mean.specs.Checks.{checks_of};
ghost use Rattle.guard_mean.specs.Hoist.{hoisted};
ghost use Rattle.trace_core.specs.Bypasses.{made_tree};
ghost use Rattle.trace_core.specs.Trees.{trace_tree};
ghost use Rattle.miss_laws.specs.Asked.{asked_of};
ghost use Rattle.guard_checks.specs.Trees.{asked_tree};

use code_make::{Checks, compile_checks};
use guard_hoist::hoist;
use shape_core::Absent;
use std::alloc::{AllocError, Global};
use trace_core::{Made, Trace};

/// The checks of an entry's trace in a case, or why it has none.
#[derive(Drop)]
pub(crate) enum Asked {
    Passes(Checks),
    Nothing(Absent),
}

/// The checks of a trace, carried to its entry with the operations up to the last one.
fn checks(alloc: Global, trace: &Trace) -> Result<Checks, AllocError>
    ensures { IfOk result (λ c. c ≡ checks_of (hoisted (to_last_check (trace_tree trace.now)))) }
{
    let hoisted = hoist(alloc, trace)?;
    let checks = compile_checks(alloc, &hoisted)?;
    Ok(checks)
}

/// What is asked of an entry in a case.
pub(crate) fn case_asked(alloc: Global, made: &Made) -> Result<Asked, AllocError>
    ensures { IfOk result (λ a. asked_tree a ≡ asked_of (made_tree made.now)) }
{
    match made {
        Made::Fused(bypass) => Ok(Asked::Passes(checks(alloc, &bypass.trace)?)),
        Made::Absent(reason) => Ok(Asked::Nothing(*reason)),
    }
}

/// What is asked of an entry in its second case, where it has one.
pub(crate) fn second_asked(alloc: Global, made: &Option<Made>) -> Result<Option<Asked>, AllocError>
    ensures { IfOk result (λ a. option_map asked_tree a ≡ option_map asked_of (option_map made_tree made.now)) }
{
    match made {
        Some(made) => Ok(Some(case_asked(alloc, made)?)),
        None => Ok(None),
    }
}
