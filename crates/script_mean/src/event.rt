//! The events of a script.

ghost use Rattle.std.specs.Prelude.{◌≡◌};
ghost use Rattle.script_mean.specs.Event.{member_of};

use crate::bytes::Bytes;

/// One event of a script. A member is named by its number, from 0.
#[derive(Debug, Drop)]
pub enum ScriptEvent {
    /// The member's application casts a body to all.
    Cast(u8, Bytes),
    /// The member's application sends a body to the member of that rank, from 0.
    Send(u8, u32, Bytes),
    /// The member's application asks to leave.
    Leave(u8),
    /// The member's clock shows this time.
    Tick(u8, u32),
    /// The packet of that number, counted from 1 in the order of sending, reaches the member.
    Give(u32, u8),
    /// These bytes reach the member as a datagram.
    Raw(u8, Bytes),
    /// The member's state is shown.
    Show(u8),
}

/// The member that an event names.
pub fn member_of(event: &ScriptEvent) -> u8
    ensures { result ≡ member_of event.now }
{
    match event {
        ScriptEvent::Cast(id, _)
        | ScriptEvent::Send(id, _, _)
        | ScriptEvent::Leave(id)
        | ScriptEvent::Tick(id, _)
        | ScriptEvent::Give(_, id)
        | ScriptEvent::Raw(id, _)
        | ScriptEvent::Show(id) => *id,
    }
}
