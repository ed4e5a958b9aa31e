//! Whether two scripts are the same.

ghost use Rattle.std.specs.Prelude.{◌≡◌, Some, slice_get};
ghost use Rattle.std.specs.Bool.{OnTrue};

use script_mean::{Script, ScriptEvent};

/// Whether two events are the same.
fn is_event(a: &ScriptEvent, b: &ScriptEvent) -> bool
    ensures { OnTrue result (a.now ≡ b.now) }
{
    match (a, b) {
        (ScriptEvent::Cast(m, body), ScriptEvent::Cast(n, other)) => {
            *m == *n && body.slice() == other.slice()
        }
        (ScriptEvent::Send(m, to, body), ScriptEvent::Send(n, rank, other)) => {
            *m == *n && *to == *rank && body.slice() == other.slice()
        }
        (ScriptEvent::Leave(m), ScriptEvent::Leave(n)) => *m == *n,
        (ScriptEvent::Tick(m, moment), ScriptEvent::Tick(n, other)) => {
            *m == *n && *moment == *other
        }
        (ScriptEvent::Give(k, m), ScriptEvent::Give(number, n)) => *k == *number && *m == *n,
        _ => false,
    }
}

/// Whether an event is the one at this place of others.
fn is_among(event: &ScriptEvent, others: &[ScriptEvent], index: usize) -> bool
    ensures { OnTrue result (slice_get others.now index ≡ Some event.now) }
{
    match others.get(index) {
        Some(other) => is_event(event, other),
        None => false,
    }
}

/// Whether events are the same, one by one.
#[tactic(auto, using(crate::proofs::Alike::same_further, crate::proofs::Alike::same_whole))]
fn are_events(all: &[ScriptEvent], others: &[ScriptEvent]) -> bool
    ensures { OnTrue result (all.now ≡ others.now) }
{
    if all.len() != others.len() {
        return false;
    }
    for (index, event) in all.iter().enumerate() {
        if !is_among(event, others, index) {
            return false;
        }
    }
    true
}

/// Whether two scripts are the same.
pub(crate) fn is_same(script: &Script, other: &Script) -> bool
    ensures { OnTrue result (script.now ≡ other.now) }
{
    script.group == other.group
        && script.stamp == other.stamp
        && script.members == other.members
        && are_events(script.events.slice(), other.events.slice())
}
