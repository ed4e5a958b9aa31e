//! Runs, worked out from the definitions alone.
#![tactic(auto)]

ghost use Rattle.run_rows.specs.Counter.{GivenSwapped, GivenTwice, Wires};
ghost use Rattle.run_rows.specs.Refusals.{Refuses, RefusesGiven};
ghost use Rattle.run_rows.specs.Towers.{FourPlaces, ThreePlaces};
ghost use Rattle.run_rows.specs.Alias.{ThreeCasts};
ghost use Rattle.run_rows.specs.Leaving.{Keeps, Leaves};
ghost use Rattle.run_rows.specs.Fragments.{JoinsPieces};
ghost use Rattle.run_rows.specs.Flips.{FlipCases, FlipPlans, FlipWires, ThreeFlips};
ghost use Rattle.run_rows.specs.Generated.{Accepts, OneDatagram, OneEvent, OneSend};
ghost use Rattle.run_rows.specs.Nodes.{GoesDeaf, Hands, Journals, Writes};
ghost use Rattle.run_rows.specs.Sends.{Repeats, Sends};
ghost use Rattle.run_rows.specs.States.{AreChained};
ghost use Rattle.run_rows.specs.Views.{InstallsViews};

/// A packet of the counter layer given twice, in both modes.
pub fn given_twice()
    ensures { GivenTwice }
{}

/// Two packets of the counter layer given in the wrong order, in both modes.
pub fn given_swapped()
    ensures { GivenSwapped }
{}

/// The bytes of a packet, in full and short.
pub fn wires()
    ensures { Wires }
{}

/// Each cause for which a datagram is refused.
pub fn refuses()
    ensures { Refuses }
{}

/// The member's own packet, packets that don't exist, and a body that is too long.
pub fn refuses_given()
    ensures { RefusesGiven }
{}

/// A cast through three places, in both modes.
pub fn three_places()
    ensures { ThreePlaces }
{}

/// A cast through four places, in both modes.
pub fn four_places()
    ensures { FourPlaces }
{}

/// A layer that writes before it branches, in both modes.
pub fn three_casts()
    ensures { ThreeCasts }
{}

/// A member that leaves.
pub fn leaves()
    ensures { Leaves }
{}

/// A queue that is shown.
pub fn keeps()
    ensures { Keeps }
{}

/// A generated script of one event.
pub fn one_event()
    ensures { OneEvent }
{}

/// A generated script of one datagram, in both modes.
pub fn one_datagram()
    ensures { OneDatagram }
{}

/// A send that gives no packet is no packet that is sent short.
pub fn one_send()
    ensures { OneSend }
{}

/// Three casts of a layer with two common cases, in both modes; its plans, its packets' bytes, and the cases of its
/// steps.
pub fn flips()
    ensures reports { ThreeFlips }
    ensures plans { FlipPlans }
    ensures bytes { FlipWires }
    ensures cases { FlipCases }
{}

/// What an accepted stack is answered with.
pub fn accepts()
    ensures { Accepts }
{}

/// A view without a member that wasn't heard from, agreed on and installed.
pub fn installs_views()
    ensures { InstallsViews }
{}

/// States that a layer can have.
pub fn are_chained()
    ensures { AreChained }
{}

/// A body that is cut into pieces, whose packets arrive in the opposite order.
pub fn joins_pieces()
    ensures { JoinsPieces }
{}

/// Sends, in both modes.
pub fn sends()
    ensures { Sends }
{}

/// A loop, in bypass mode.
pub fn repeats()
    ensures { Repeats }
{}

/// Two turns of a node: its journal, what it writes, and what it hands to the network.
pub fn node()
    ensures journal { Journals }
    ensures writes { Writes }
    ensures hands { Hands }
{}

/// A node whose receive fails, without patience and with it.
pub fn goes_deaf()
    ensures { GoesDeaf }
{}
