//! What the program does with small files, worked out from their bytes by the definitions alone.
#![tactic(auto)]

ghost use Rattle.program_rows.specs.Refused.{RefusesBadByte, RefusesCycle, RefusesEmpty, RefusesUnknown, RefusesWeight};
ghost use Rattle.program_rows.specs.Node.{EndsThere, GoesOn};
ghost use Rattle.program_rows.specs.Written.{AuditsCrossed, ChecksLibrary, ExplainsCounter, ExplainsLate};
ghost use Rattle.program_rows.specs.Written.{ReplaysCounter, ReplaysFlips, ReplaysShort, ReplaysTold};

/// Files that are refused, with their causes.
pub fn refuses()
    ensures unknown { RefusesUnknown }
    ensures cycle { RefusesCycle }
    ensures weight { RefusesWeight }
{}

/// Texts that spell no file.
pub fn refuses_texts()
    ensures bad_byte { RefusesBadByte }
    ensures empty { RefusesEmpty }
{}

/// A replay of the counter layer, in both modes.
pub fn replays_counter()
    ensures { ReplaysCounter }
{}

/// A replay of the counter layer with bypasses, with the packet's bytes and the number of visits.
pub fn replays_short()
    ensures { ReplaysShort }
{}

/// A replay of the counter layer with the events.
pub fn replays_told()
    ensures { ReplaysTold }
{}

/// A replay over a file whose layer has two common cases.
pub fn replays_flips()
    ensures { ReplaysFlips }
{}

/// What steps of the counter layer lacked.
pub fn explains_counter()
    ensures { ExplainsCounter }
{}

/// What a step lacked in both cases of a layer that has two, the first without a shape.
pub fn explains_late()
    ensures { ExplainsLate }
{}

/// A node whose receive fails, without patience and with it.
pub fn node_goes_deaf()
    ensures ends { EndsThere }
    ensures patient { GoesOn }
{}

/// The judging of the whole library.
pub fn checks_library()
    ensures { ChecksLibrary }
{}

/// An audit with a breach, and one without.
pub fn audits_crossed()
    ensures { AuditsCrossed }
{}
