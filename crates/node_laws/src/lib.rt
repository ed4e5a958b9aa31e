//! Laws of nodes, each the contract of a function that does nothing: what a node does call by call, what it writes and
//! hands on of that, and that what its members send is for members of the group.
#![tactic(auto)]

ghost use Rattle.node_laws.specs.Acts.{ActsAreOfDoings, EventActs};
ghost use Rattle.node_laws.specs.Doings.{NotesAreOfDoings};
ghost use Rattle.node_laws.specs.Groups.{EventsKeepWithin, FirstViewsAreWithin, SendsAreSendable};
ghost use Rattle.node_laws.specs.Losses.{SendsAreHanded, WrittenIsOfNotes};
ghost use Rattle.node_laws.specs.Stages.{AskingEnds, AskingGoesOn, PlannedIsLeft, PlannedIsOver, PlansAreOrdered};
ghost use Rattle.node_laws.specs.Stages.{PlansAsk, StoppedGoesOn, TurnsBeginWithTicks};

/// The notes of what a node does are its notes.
pub fn notes_are_of_doings()
    ensures { NotesAreOfDoings }
{}

/// What is written of it are the lines of its notes.
pub fn written_is_of_notes()
    ensures { WrittenIsOfNotes }
{}

/// What is handed on are the packets of its journal.
pub fn sends_are_handed()
    ensures { SendsAreHanded }
{}

/// The first view of a group has only members of the group.
pub fn first_views_are_within()
    ensures { FirstViewsAreWithin }
{}

/// An event leaves views within the group.
pub fn events_keep_within()
    ensures { EventsKeepWithin }
{}

/// What a member sends goes to members of the group, and is short.
pub fn sends_are_sendable()
    ensures { SendsAreSendable }
{}

/// A turn begins with ticks.
pub fn turns_begin_with_ticks()
    ensures { TurnsBeginWithTicks }
{}

/// What a member hears is done in its place.
pub fn asking_goes_on()
    ensures { AskingGoesOn }
{}

/// A failure that isn't borne is the last.
pub fn asking_ends()
    ensures { AskingEnds }
{}

/// A node that stopped could have gone on.
pub fn law_stopped_goes_on()
    ensures { StoppedGoesOn }
{}

/// The lines of a plan come in the order of their turns.
pub fn plans_are_ordered()
    ensures { PlansAreOrdered }
{}

/// The events of a plan are casts, sends and leaves.
pub fn plans_ask()
    ensures { PlansAsk }
{}

/// The planned events of a turn are among the lines after those of earlier turns.
pub fn planned_is_left()
    ensures { PlannedIsLeft }
{}

/// From a line of a later turn on a turn has no planned event.
pub fn planned_is_over()
    ensures { PlannedIsOver }
{}

/// What is written and handed on in an event's acts is what is written and handed on of the event.
pub fn event_acts()
    ensures { EventActs }
{}

/// What is written and handed on in a node's acts is what is written and handed on of all that it does.
pub fn acts_are_of_doings()
    ensures { ActsAreOfDoings }
{}
