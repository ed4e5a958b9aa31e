//! Laws of room, each the contract of a function that does nothing.

ghost use Rattle.stack_queue.specs.Laws.{EntriesFit, StacksFit};

/// A list that is made for a stack has places for each run: a task with which one begins weighs no more than the stack.
pub fn law_entries_fit()
    ensures { EntriesFit }
{}

/// A list of events may have as many places as an accepted stack weighs.
pub fn stacks_fit()
    ensures { StacksFit }
{}
