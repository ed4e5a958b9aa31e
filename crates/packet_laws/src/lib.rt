//! Laws of packets and their spellings, each the contract of a function that does nothing.
#![tactic(auto)]

ghost use Rattle.packet_laws.specs.Chains.{NoneAboveTheTop, PoppedGoesOn, PushedIsChained};
ghost use Rattle.packet_laws.specs.Lengths.{DatagramsFit, PreambleIs19};
ghost use Rattle.packet_laws.specs.Once.{OneFullSpelling, OneShortSpelling, SpelledOnce};
ghost use Rattle.packet_laws.specs.Strays.{ReceivedAsMeant, StrayOrSpelled, TakenAsSpelled};

/// Bytes spell at most one packet.
pub fn spelled_once()
    ensures { SpelledOnce }
{}

/// A packet has one full spelling.
pub fn one_full_spelling()
    ensures { OneFullSpelling }
{}

/// A packet has one short spelling under each plan that it fits.
pub fn one_short_spelling()
    ensures { OneShortSpelling }
{}

/// The form in which a packet came plays no part in what a member makes of it.
pub fn received_as_meant()
    ensures { ReceivedAsMeant }
{}

/// A member takes bytes as a packet exactly where they spell it and it is for the member.
pub fn taken_as_spelled()
    ensures { TakenAsSpelled }
{}

/// Bytes aren't stray exactly where they spell a packet that is for the member.
pub fn stray_or_spelled()
    ensures { StrayOrSpelled }
{}

/// A preamble is missing exactly where there are fewer than 19 bytes.
pub fn preamble_is_19()
    ensures { PreambleIs19 }
{}

/// Datagrams of a stack within the limits are at most 8,619 bytes.
pub fn datagrams_fit()
    ensures { DatagramsFit }
{}

/// A message with a header of a place pushed on it is chained from there.
pub fn pushed_is_chained()
    ensures { PushedIsChained }
{}

/// A message that is chained from a place has a header of that place, and goes on after it.
pub fn popped_goes_on()
    ensures { PoppedGoesOn }
{}

/// Above the top place a chained message has no headers.
pub fn none_above_the_top()
    ensures { NoneAboveTheTop }
{}
