//! Laws of the form of traces, as contracts of functions that do nothing.
#![tactic(auto)]

pub mod samples;

ghost use Rattle.trace_form_laws.specs.Closed.{TracesAreClosed};
ghost use Rattle.trace_form_laws.specs.Counts.{AcceptedTracesFit, TracesAreFew, TracesJoinLess};
ghost use Rattle.trace_form_laws.specs.Entries.{ChainedIsEntry};
ghost use Rattle.trace_form_laws.specs.Plans.{PlansAreEntries};
ghost use Rattle.trace_form_laws.specs.There.{TracesNameWell};
ghost use Rattle.trace_form_laws.specs.WellFormed.{TracesAreWellFormed};

/// What has a chained input is an entry.
pub fn chained_is_entry()
    ensures { ChainedIsEntry }
{}

/// The plans of a stack are entries.
pub fn plans_are_entries()
    ensures { PlansAreEntries }
{}

/// A trace joins no more than acceptance counts for its entry.
pub fn traces_join_less()
    ensures { TracesJoinLess }
{}

/// A trace has fewer notes than other operations and visits together, and no more outputs than its entry weighs.
pub fn traces_are_few()
    ensures { TracesAreFew }
{}

/// The joins, notes and outputs of a trace of an accepted stack are within limits.
pub fn accepted_traces_fit()
    ensures { AcceptedTracesFit }
{}

/// A trace names only what it was given and what it has made before.
pub fn traces_are_closed()
    ensures { TracesAreClosed }
{}

/// What a trace names at the places of its stack is there.
pub fn traces_name_well()
    ensures { TracesNameWell }
{}

/// A trace is well formed.
pub fn traces_are_well_formed()
    ensures { TracesAreWellFormed }
{}
