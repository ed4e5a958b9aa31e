//! The lines of a node's journal that a report doesn't have: its events, sendings that failed, and members that
//! couldn't hear.

ghost use Rattle.std.specs.Prelude.{◌≡◌, ◌++◌, ◌∷◌, [], OnOk, codes};
ghost use Rattle.std.specs.Fmt.{decimal};
ghost use Rattle.std.specs.List.{join_with_byte};
ghost use Rattle.run_mean.specs.Lines as report;
ghost use Rattle.script_mean.specs.EventText.{event_text, hex_text};

use crate::line::Line;
use crate::lines::{count_line, push_word};
use msg_core::Memory;
use script_mean::ScriptEvent;

/// Appends `WORD M HEX`.
fn push_bytes(line: &mut Line, word: &[u8], id: u8, bytes: &[u8]) -> Result<(), Memory>
    ensures { OnOk result (line.new ≡ line.old
        ++ join_with_byte 32 (word.now ∷ decimal id ∷ hex_text bytes.now ∷ [])) }
{
    push_word(line, word, id)?;
    line.text(b" ")?;
    line.hex(bytes)
}

/// Appends `send M P HEX`.
fn push_send(line: &mut Line, id: u8, to: u32, body: &[u8]) -> Result<(), Memory>
    ensures { OnOk result (line.new ≡ line.old
        ++ join_with_byte 32 (codes "send" ∷ decimal id ∷ decimal to ∷ hex_text body.now ∷ [])) }
{
    push_word(line, b"send", id)?;
    line.spaced(to)?;
    line.text(b" ")?;
    line.hex(body)
}

/// Appends `tick M T`.
fn push_tick(line: &mut Line, id: u8, moment: u32) -> Result<(), Memory>
    ensures { OnOk result (line.new ≡ line.old
        ++ join_with_byte 32 (codes "tick" ∷ decimal id ∷ decimal moment ∷ [])) }
{
    push_word(line, b"tick", id)?;
    line.spaced(moment)
}

/// Appends `give K M`.
fn push_give(line: &mut Line, number: u32, id: u8) -> Result<(), Memory>
    ensures { OnOk result (line.new ≡ line.old
        ++ join_with_byte 32 (codes "give" ∷ decimal number ∷ decimal id ∷ [])) }
{
    line.text(b"give")?;
    line.spaced(number)?;
    line.spaced(u32::from(id))
}

/// Appends the words of an event.
fn push_event(line: &mut Line, event: &ScriptEvent) -> Result<(), Memory>
    ensures { OnOk result (line.new ≡ line.old ++ event_text event.now) }
{
    match event {
        ScriptEvent::Cast(id, body) => push_bytes(line, b"cast", *id, body.slice()),
        ScriptEvent::Send(id, to, body) => push_send(line, *id, *to, body.slice()),
        ScriptEvent::Leave(id) => push_word(line, b"leave", *id),
        ScriptEvent::Tick(id, moment) => push_tick(line, *id, *moment),
        ScriptEvent::Give(number, id) => push_give(line, *number, *id),
        ScriptEvent::Raw(id, bytes) => push_bytes(line, b"raw", *id, bytes.slice()),
        ScriptEvent::Show(id) => push_word(line, b"state", *id),
    }
}

/// `> EVENT`: the line of an event of a script, after a sign and a space.
pub fn journal_line(line: &mut Line, event: &ScriptEvent) -> Result<(), Memory>
    ensures { OnOk result (line.new ≡ line.old ++ report.line (codes ">" ∷ event_text event.now ∷ [])) }
{
    line.text(b"> ")?;
    push_event(line, event)?;
    line.text(b"\n")
}

/// `lost K`: a sending of packet K failed.
pub fn lost_line(line: &mut Line, number: u64) -> Result<(), Memory>
    ensures { OnOk result (line.new ≡ line.old ++ report.line (codes "lost" ∷ decimal number ∷ [])) }
{
    count_line(line, b"lost", number)
}

/// `deaf M`: member M couldn't hear.
pub fn deaf_line(line: &mut Line, id: u8) -> Result<(), Memory>
    ensures { OnOk result (line.new ≡ line.old ++ report.line (codes "deaf" ∷ decimal id ∷ [])) }
{
    count_line(line, b"deaf", u64::from(id))
}
