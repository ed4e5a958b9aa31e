//! Bypasses of small stacks, written out: the functions here are empty.
#![tactic(auto)]

ghost use Rattle.bypass_mean.specs.Samples.{CounterText, FileText, FlipText, GuardText, JoinedText, KeeperText};

/// The text of a layer that counts casts.
pub fn counter_text()
    ensures { CounterText }
{}

/// A guard.
pub fn guard_text()
    ensures { GuardText }
{}

/// Two cases, and entries without a trace.
pub fn flip_text()
    ensures { FlipText }
{}

/// Notes, written out and not.
pub fn joined_text()
    ensures { JoinedText }
{}

/// Queues with an index.
pub fn keeper_text()
    ensures { KeeperText }
{}

/// Traces as a file.
pub fn file_text()
    ensures { FileText }
{}
