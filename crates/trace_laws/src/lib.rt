//! That the traces of entries are right and safe: the contracts of functions that do nothing.
#![tactic(auto)]

ghost use Rattle.trace_laws.specs.Calls.{SafeOutputsFit, SafePushesFit};
ghost use Rattle.trace_laws.specs.Unchecked.{ChecksCanGo};
ghost use Rattle.trace_laws.specs.Members.{RunsKeepMembers};
ghost use Rattle.trace_laws.specs.Right.{TracesAreRight};
ghost use Rattle.trace_laws.specs.Shapes.{OutputsAreTold, TracesStandForShapes};

/// The trace of an entry of typed layers, from chained states, gives what the run of its entry gives, and is safe
/// as far as it is followed.
pub fn traces_are_right()
    ensures { TracesAreRight }
{}

/// An entry has a trace exactly where it has a shape, and else has none for the same reason; a trace is as long as the
/// shape, and its outputs are the shape's.
pub fn traces_stand_for_shapes()
    ensures { TracesStandForShapes }
{}

/// A trace has as many outputs as it tells.
pub fn outputs_are_told()
    ensures { OutputsAreTold }
{}

/// Where a trace reaches its end, so do its operations without checks, and safely.
pub fn checks_can_go()
    ensures { ChecksCanGo }
{}

/// Through any run states stay those of their member.
pub fn runs_keep_members()
    ensures { RunsKeepMembers }
{}

/// A safe push has room below the cell's capacity, and a short message.
pub fn safe_pushes_fit()
    ensures { SafePushesFit }
{}

/// What is put out safely has few headers.
pub fn safe_outputs_fit()
    ensures { SafeOutputsFit }
{}
