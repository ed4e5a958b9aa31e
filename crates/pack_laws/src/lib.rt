//! What the symbolic list of a trace tells, that traces from outside may be run by it, and what follows from how a file
//! of traces is read: the contracts of functions that do nothing.
#![tactic(auto)]

pub mod samples;

ghost use Rattle.pack_laws.specs.Files.{FilesAreWrittenSo};
ghost use Rattle.pack_laws.specs.Form.{WhatIsReadIsInForm};
ghost use Rattle.pack_laws.specs.Accepted.{AcceptedAreOfStack, AcceptedMayReplace, OwnTracesGiveOwn};
ghost use Rattle.pack_laws.specs.Replacement.{ReplacedAreOfStack};
ghost use Rattle.pack_laws.specs.SafeActs.{SameActsAreSafe};
ghost use Rattle.pack_laws.specs.SameActs.{SameActsFollowAlike};
ghost use Rattle.pack_laws.specs.Written.{WhatIsReadIsWrittenSo};

/// Traces with one symbolic list give the same, on all states and inputs.
pub fn same_acts_follow_alike()
    ensures { SameActsFollowAlike }
{}

/// Where one of them is followed safely, so is the other.
pub fn same_acts_are_safe()
    ensures { SameActsAreSafe }
{}

/// Bypasses that are made of traces with the symbolic lists of a stack's own are the stack's.
pub fn replaced_are_of_stack()
    ensures { ReplacedAreOfStack }
{}

/// The traces that are read from a file name only what was made before and what is there, and there is one for each
/// case that is due.
pub fn what_is_read_is_in_form()
    ensures { WhatIsReadIsInForm }
{}

/// Each trace of an accepted file that has no more joins than the stack's own may be run in its place.
pub fn accepted_may_replace()
    ensures { AcceptedMayReplace }
{}

/// The bypasses that an accepted file gives are the stack's.
pub fn accepted_are_of_stack()
    ensures { AcceptedAreOfStack }
{}

/// The stack's own traces give what is made of them.
pub fn own_traces_give_own()
    ensures { OwnTracesGiveOwn }
{}

/// An operation that a line says is written as that line.
pub fn what_is_read_is_written_so()
    ensures { WhatIsReadIsWrittenSo }
{}

/// A file whose traces are read has the lines of these traces.
pub fn files_are_written_so()
    ensures { FilesAreWrittenSo }
{}
