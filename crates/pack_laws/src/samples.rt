//! A trace that may be run in place of the definition's, and files of small stacks, by evaluation: the functions here
//! are empty.
#![tactic(auto)]

ghost use Rattle.pack_laws.specs.Samples.{CounterIsRead, MessagesAreRead, NumbersAreRead, OperationsAreRead};
ghost use Rattle.pack_laws.specs.Samples.{OperatorsAreRead, OthersAreRefused, SmallIsRead, SmallIsRefused};
ghost use Rattle.pack_laws.specs.SymbolSamples.{WrittenOutReplaces};

/// A bind that is written out in its place.
pub fn written_out_replaces()
    ensures { WrittenOutReplaces }
{}

/// A file of own traces.
pub fn counter_is_read()
    ensures { CounterIsRead }
{}

/// A small file.
pub fn small_is_read()
    ensures { SmallIsRead }
{}

/// Files that are out of form, by the number of their first such line.
pub fn small_is_refused()
    ensures { SmallIsRefused }
{}

/// Numbers of each form.
pub fn numbers_are_read()
    ensures { NumbersAreRead }
{}

/// Each operator.
pub fn operators_are_read()
    ensures { OperatorsAreRead }
{}

/// Messages of each form.
pub fn messages_are_read()
    ensures { MessagesAreRead }
{}

/// Operations of each form.
pub fn operations_are_read()
    ensures { OperationsAreRead }
{}

/// Lines that are no operation.
pub fn others_are_refused()
    ensures { OthersAreRefused }
{}
