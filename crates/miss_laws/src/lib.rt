//! That the checks of a stack's traces, asked on the states before a step, tell what the step lacked: the contracts of
//! functions that do nothing.
#![tactic(auto)]

ghost use Rattle.miss_laws.specs.Checked.{ChecksFindUnheld, UnheldStops};
ghost use Rattle.miss_laws.specs.Told.{MissesAreTold};

/// The tests of a guarded handler's conjuncts find the first that doesn't hold.
pub fn checks_find_unheld()
    ensures { ChecksFindUnheld }
{}

/// The first conjunct of a trace, hoisted up to its last check, that doesn't hold has the number of the check at which
/// following the trace stops.
pub fn unheld_stops()
    ensures { UnheldStops }
{}

/// So they tell what a step that isn't common lacked.
pub fn law_misses_are_told()
    ensures { MissesAreTold }
{}
