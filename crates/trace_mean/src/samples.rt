//! Traces of small stacks, made and followed by evaluation: the functions here are empty.
#![tactic(auto, unfolding(crate::specs::Samples::evaluated))]

ghost use Rattle.trace_mean.specs.Samples.{
  CounterFollowed,
  CounterTraces,
  FlipTraces,
  JoinedCounts,
  JoinedFollowed,
  JoinedTrace,
  KeeperTrace,
  KeptLength,
  KeptTrace,
  LeaverFollowed,
  LeaverTrace,
  NoTraces,
  NotedLength,
  NotedTrace,
};

/// The four traces of a layer that counts casts: 4, 1, 4 and 1 operations.
pub fn counter_traces()
    ensures { CounterTraces }
{}

/// A trace with a split: the delivery comes before the packet.
pub fn kept_trace()
    ensures { KeptTrace }
{}

/// It has 20 operations.
pub fn kept_length()
    ensures { KeptLength }
{}

/// The traces of two cases.
pub fn flip_traces()
    ensures { FlipTraces }
{}

/// Where there is no trace, and why.
pub fn no_traces()
    ensures { NoTraces }
{}

/// The counter's cast is followed to its end, and a packet that comes too early stops at its first check.
pub fn counter_followed()
    ensures { CounterFollowed }
{}

/// Parts that are cut, taken and held are noted.
pub fn noted_trace()
    ensures { NotedTrace }
{}

/// Notes don't count.
pub fn noted_length()
    ensures { NotedLength }
{}

/// A part that is pushed and taken, and joined to the message that is sent.
pub fn joined_trace()
    ensures { JoinedTrace }
{}

/// What it counts for.
pub fn joined_counts()
    ensures { JoinedCounts }
{}

/// What it does.
pub fn joined_followed()
    ensures { JoinedFollowed }
{}

/// A queue for each member.
pub fn keeper_trace()
    ensures { KeeperTrace }
{}

/// A part that is sent before its row is taken.
pub fn leaver_trace()
    ensures { LeaverTrace }
{}

/// It is sent as it was where it was noted.
pub fn leaver_followed()
    ensures { LeaverFollowed }
{}
