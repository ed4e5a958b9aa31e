//! That guards hold exactly where all checks of their traces are passed, and that the code of an entry does what its
//! run does: the contracts of functions that do nothing.
#![tactic(auto)]

ghost use Rattle.guard_laws.specs.Closed.{HoistedIsClosed, SimplifiedIsClosed};
ghost use Rattle.guard_laws.specs.Code.{CodeIsSame};
ghost use Rattle.guard_laws.specs.Counts.{CodeAddsNothing, HoistedAddsNothing, SimplifiedAddsNothing};
ghost use Rattle.guard_laws.specs.Entry.{CodesAreRight, CodesFollowTraces, EntriesAreGuarded};
ghost use Rattle.guard_laws.specs.Forms.{SimplifiedStaysFormed};
ghost use Rattle.guard_laws.specs.LastCheck.{GuardsEndWithChecks};
ghost use Rattle.guard_laws.specs.Safe.{CodeIsSafe};
ghost use Rattle.guard_laws.specs.Same.{HoistedIsSame};
ghost use Rattle.guard_laws.specs.Simpler.{SimplifiedIsReduced, SimplifiedIsSame};

/// A hoisted guard holds exactly where following its trace reaches the end, and then the operations without checks end
/// alike.
pub fn hoisted_is_same()
    ensures { HoistedIsSame }
{}

/// A simplified guarded handler holds where it held, and does what it did.
pub fn simplified_is_same()
    ensures { SimplifiedIsSame }
{}

/// A simplified guarded handler is reduced.
pub fn simplified_is_reduced()
    ensures { SimplifiedIsReduced }
{}

/// What is simplified stays as well formed as it was.
pub fn simplified_stays_formed()
    ensures { SimplifiedStaysFormed }
{}

/// Code passes its tests where its guarded handler holds, and then ends alike.
pub fn code_is_same()
    ensures { CodeIsSame }
{}

/// Where a guarded handler's operations are safe along the way, so are the steps of its code.
pub fn code_is_safe()
    ensures { CodeIsSafe }
{}

/// On the states and inputs of an entry its guarded handler does what following its trace does.
pub fn entries_are_guarded()
    ensures { EntriesAreGuarded }
{}

/// So does its code.
pub fn codes_follow_traces()
    ensures { CodesFollowTraces }
{}

/// The code of an entry passes exactly where the run of the entry goes as predicted in its case, and then ends with the
/// run's states and outputs.
pub fn codes_are_right()
    ensures { CodesAreRight }
{}

/// Hoisting adds no join and no output.
pub fn hoisted_adds_nothing()
    ensures { HoistedAddsNothing }
{}

/// Nor does simplifying.
pub fn simplified_adds_nothing()
    ensures { SimplifiedAddsNothing }
{}

/// Nor does the code.
pub fn code_adds_nothing()
    ensures { CodeAddsNothing }
{}

/// A hoisted handler uses each entry value only after it is made, and nothing that is bound, noted or taken in its
/// guard.
pub fn hoisted_is_closed()
    ensures { HoistedIsClosed }
{}

/// So does what is simplified.
pub fn simplified_is_closed()
    ensures { SimplifiedIsClosed }
{}

/// The guard of a trace is made of its operations up to the last check: carrying those after it adds nothing.
pub fn guards_end_with_checks()
    ensures { GuardsEndWithChecks }
{}
