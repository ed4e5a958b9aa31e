//! The events of a script, in order.
ghost use Rattle.std.specs.Prelude.{◌≡◌};

use crate::event::ScriptEvent;
use std::marker::Model;

/// Events in order, which contracts see as a list.
#[derive(Debug, Drop)]
pub struct Events {
    events: Vec<ScriptEvent>,
}

impl Model for Events {
    ghost use Rattle.std.specs.Prelude.{List};
    ghost use Rattle.script_mean.specs.declared.event.ScriptEvent.{ScriptEvent};

    ghost Value = { List ScriptEvent };

    ghost view = { λ e. e.events.items };
}

impl Events {
    /// These events in order, in the memory in which they are.
    pub fn of(events: Vec<ScriptEvent>) -> Events
        ensures { result ≡ events.items }
    {
        Events { events }
    }

    /// The events, in order.
    pub fn slice(&self) -> &[ScriptEvent]
        ensures { result.now ≡ self.now }
    {
        self.events.as_slice()
    }
}
