//! The laws on small files, worked out by evaluation. Nothing runs here.
ghost use Rattle.file_laws.specs.Samples.{CounterIsTyped, CounterRuns, QueuesAreTyped, SmallFilesAreNamed};

/// The counter's file has no fault, and means a typed stack.
pub fn counter_is_typed()
    ensures { CounterIsTyped }
{}

/// So has one with queues of messages and of parts at two places.
pub fn queues_are_typed()
    ensures { QueuesAreTyped }
{}

/// A cast from above the counter leaves chained states and outputs.
pub fn counter_runs()
    ensures { CounterRuns }
{}

/// All that the layers of both name is there.
pub fn small_files_are_named()
    ensures { SmallFilesAreNamed }
{}
