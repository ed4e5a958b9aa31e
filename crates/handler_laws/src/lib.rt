//! That following the trace of a step's entry gives what the step does, and so does the code of the entry: the
//! contracts of functions that do nothing.
#![tactic(auto)]

ghost use Rattle.handler_laws.specs.Handled.{StepsAreHandled};
ghost use Rattle.handler_laws.specs.Members.{FreshAreOfMember, StatesAreOf, StepsKeepMembers};
ghost use Rattle.handler_laws.specs.Steps.{EntriesBegin, StepsFollowTraces};

/// What enters a member begins with its entry's task.
pub fn entries_begin()
    ensures { EntriesBegin }
{}

/// A step gives what following its entry's trace gives, and safely.
pub fn steps_follow_traces()
    ensures { StepsFollowTraces }
{}

/// The code of a step's entry in a case passes exactly where the step is common in it, and then does what the step
/// does.
pub fn law_steps_are_handled()
    ensures { StepsAreHandled }
{}

/// Fresh states are those of a member.
pub fn fresh_are_of_member()
    ensures { FreshAreOfMember }
{}

/// They stay so through a step.
pub fn steps_keep_members()
    ensures { StepsKeepMembers }
{}

/// They are those of each input that the member is given.
pub fn states_are_of()
    ensures { StatesAreOf }
{}
