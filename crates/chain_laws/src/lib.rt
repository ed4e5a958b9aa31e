//! Laws of chained messages, each the contract of a function that does nothing: what keeps them chained, and that so
//! kept they are what the laws of weights ask for.
#![tactic(auto)]

ghost use Rattle.chain_laws.specs.Runs.{ChainsAreShort, RunFromATask, RunsKeepChains, TurnsKeepChains};
ghost use Rattle.chain_laws.specs.Visits.{FreshIsChained, VisitsKeepChains};
ghost use Rattle.chain_laws.specs.Orderly.{ChainedIsKnown, TypedIsOrderly};

/// A visit of a typed layer keeps states and messages chained.
pub fn visits_keep_chains()
    ensures { VisitsKeepChains }
{}

/// The state of a layer that has seen no event is chained.
pub fn fresh_is_chained()
    ensures { FreshIsChained }
{}

/// One turn of the queue keeps states, outputs and tasks chained.
pub fn turns_keep_chains()
    ensures { TurnsKeepChains }
{}

/// Any number of turns keeps them chained.
pub fn runs_keep_chains()
    ensures { RunsKeepChains }
{}

/// A run from chained states and a chained task leaves chained states and outputs.
pub fn run_from_a_task()
    ensures { RunFromATask }
{}

/// A message has at most one header for each layer.
pub fn chains_are_short()
    ensures { ChainsAreShort }
{}

/// A typed stack sends only what its graph tells.
pub fn typed_is_orderly()
    ensures { TypedIsOrderly }
{}

/// A chained task is at one of the nodes of its stack.
pub fn chained_is_known()
    ensures { ChainedIsKnown }
{}
