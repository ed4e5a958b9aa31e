//! Guards of small traces, made by evaluation: the functions here are empty.
#![tactic(auto, unfolding(trace_mean::specs::Fuse::made_trace, stack_mean::specs::Shape::has_second_case))]

ghost use Rattle.guard_mean.specs.Samples.{AliasedGuard, CounterCode, CounterGuard, FlipCode, FlipGuard, HeldGuard};
ghost use Rattle.guard_mean.specs.Samples.{LiteralGuards, QueueGuard};

/// The guard of the counter's packet: one comparison, and no entry value.
pub fn counter_guard()
    ensures { CounterGuard }
{}

/// The code that is run for it.
pub fn counter_code()
    ensures { CounterCode }
{}

/// A check after a set of the same cell.
pub fn flip_guard()
    ensures { FlipGuard }
{}

/// The code of that check, and what is read after the set.
pub fn flip_code()
    ensures { FlipCode }
{}

/// A check after a set of what may be the same number.
pub fn aliased_guard()
    ensures { AliasedGuard }
{}

/// A row that is pushed, counted and looked at.
pub fn queue_guard()
    ensures { QueueGuard }
{}

/// The size of a held message.
pub fn held_guard()
    ensures { HeldGuard }
{}

/// Numbers alone, and a guard that never holds.
pub fn literal_guards()
    ensures { LiteralGuards }
{}
