//! A protocol that is proved: the layer `fifo` of the tutorial delivers the casts of each peer in the order in
//! which they were cast, in every script. Each law is the contract of a function that does nothing.
#![tactic(auto)]

ghost use Rattle.fifo_laws.specs.Layer.{TextMeans};
ghost use Rattle.fifo_laws.specs.Law.{AuditHolds, DeliversFirst, IsTyped, SenderHolds};
ghost use Rattle.fifo_laws.specs.Protocol.{FifoIsProved};
ghost use Rattle.fifo_laws.specs.Steps.{CastComesUp, CastGoesDown, StepsAre};
ghost use Rattle.fifo_laws.specs.Sample.{SampleIsFair, SampleReports};

/// The text of the file means the stack.
pub fn text_means()
    ensures { TextMeans }
{}

/// The stack is typed.
pub fn is_typed()
    ensures { IsTyped }
{}

/// A cast that goes down is numbered, in any state.
pub fn cast_goes_down()
    ensures { CastGoesDown }
{}

/// A cast that comes up is delivered exactly where it is due, in any state.
pub fn cast_comes_up()
    ensures { CastComesUp }
{}

/// Each step of a member, in any state.
pub fn steps_are()
    ensures { StepsAre }
{}

/// Each step keeps what the proof says of members, packets and deliveries.
pub fn fifo_is_proved()
    ensures { FifoIsProved }
{}

/// The law `sender` holds in every fair script.
pub fn sender_holds()
    ensures { SenderHolds }
{}

/// What a member delivers of a peer are the first so many of the peer's casts.
pub fn delivers_first()
    ensures { DeliversFirst }
{}

/// An audit of the report of such a script says that it holds.
pub fn audit_holds()
    ensures { AuditHolds }
{}

/// A script with deliveries meets the premises.
pub fn sample_is_fair()
    ensures { SampleIsFair }
{}

/// Its report, by evaluation.
pub fn sample_reports()
    ensures { SampleReports }
{}
