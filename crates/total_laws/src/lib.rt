//! A protocol of the library that is proved: `bottom; local; total` delivers all casts in one order, in every
//! script. Each law is the contract of a function that does nothing.
#![tactic(auto)]

ghost use Rattle.total_laws.specs.Law.{AuditHolds, DeliversFirst, IsTyped, TotalHolds};
ghost use Rattle.total_laws.specs.Protocol.{TotalIsProved};
ghost use Rattle.total_laws.specs.Steps.{RunsAre};

/// The stack is typed.
pub fn is_typed()
    ensures { IsTyped }
{}

/// Each run of a member, in any state.
pub fn runs_are()
    ensures { RunsAre }
{}

/// Each step keeps what the proof says of members, packets and deliveries.
pub fn total_is_proved()
    ensures { TotalIsProved }
{}

/// The law `total` holds in every fair script.
pub fn total_holds()
    ensures { TotalHolds }
{}

/// What a member delivers are the first so many casts of the one order.
pub fn delivers_first()
    ensures { DeliversFirst }
{}

/// An audit of the report of such a script says that it holds.
pub fn audit_holds()
    ensures { AuditHolds }
{}
