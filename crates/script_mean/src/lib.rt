//! What a script and a plan of a node are: the data types that keep one, and in `specs/` which script
//! or plan a text spells, the generated script, and the line of an event.
#![tactic(auto)]

mod bytes;
mod event;
mod event_lines;
mod events;
mod examples;
mod generated;
mod plan;
mod plan_examples;
mod script;

pub use crate::bytes::Bytes;
pub use crate::event::{ScriptEvent, member_of};
pub use crate::event_lines::{events_read_back, say_events};
pub use crate::events::Events;
pub use crate::examples::{find_faults, spell_scripts};
pub use crate::generated::{datagrams, first_draws, twenty_events};
pub use crate::plan::{NodePlan, Peers, Turns};
pub use crate::plan_examples::{find_plan_faults, spell_plans};
pub use crate::script::{GroupLine, Script};
