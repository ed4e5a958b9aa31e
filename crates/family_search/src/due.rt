//! Events that are due.

ghost use Rattle.std.specs.Prelude.{◌≡◌, ◌≤◌, length};
ghost use Rattle.family_mean.specs.Family as family;
ghost use Rattle.family_search.specs.Coming.{act_due, done_of, due_by, due_in, rank_of, times_of};
ghost use Rattle.family_search.specs.Trying.{event_in};
ghost use Rattle.script_mean.specs.Event as event;

use crate::choice::Choice;
use crate::trial::Trial;
use script_mean::{ScriptEvent, member_of};

/// Whether two events are acts of one kind and of one member.
fn same_kind(a: &ScriptEvent, b: &ScriptEvent) -> bool
    ensures { result ≡ family.same_kind a.now b.now }
{
    match (a, b) {
        (ScriptEvent::Cast(m, _), ScriptEvent::Cast(n, _)) => *m == *n,
        (ScriptEvent::Send(m, _, _), ScriptEvent::Send(n, _, _)) => *m == *n,
        (ScriptEvent::Leave(m), ScriptEvent::Leave(n)) => *m == *n,
        (ScriptEvent::Tick(m, _), ScriptEvent::Tick(n, _)) => *m == *n,
        _ => false,
    }
}

/// Whether an event gives this packet to this member.
fn gives(packet: u32, member: u8, event: &ScriptEvent) -> bool
    ensures { result ≡ family.gives packet member event.now }
{
    match event {
        ScriptEvent::Give(k, id) => *k == packet && *id == member,
        _ => false,
    }
}

/// Whether a choice is an act of the kind of another.
#[tactic(auto, using(crate::proofs::NoKind::no_kind_give, crate::proofs::NoKind::no_kind_show))]
fn is_kind(acts: &[ScriptEvent], act: &ScriptEvent, choice: Choice) -> bool
    ensures { result ≡ family.same_kind act.now (event_in acts.now choice) }
{
    match choice {
        Choice::Act(index) => match acts.get(index as usize) {
            Some(other) => same_kind(act, other),
            None => false,
        },
        Choice::Give(_, _) => false,
    }
}

/// Whether a choice gives this packet to this member.
fn is_given(acts: &[ScriptEvent], packet: u32, member: u8, choice: Choice) -> bool
    ensures { result ≡ family.gives packet member (event_in acts.now choice) }
{
    match choice {
        Choice::Act(index) => match acts.get(index as usize) {
            Some(other) => gives(packet, member, other),
            None => false,
        },
        Choice::Give(k, id) => k == packet && id == member,
    }
}

/// How many acts of an act's kind stand before it.
fn rank(acts: &[ScriptEvent], index: usize, act: &ScriptEvent) -> usize
    requires { index ≤ length acts.now }
    ensures { result ≡ rank_of acts.now index act.now }
{
    acts[..index]
        .iter()
        .filter(|other| same_kind(act, other))
        .count()
}

/// How many acts of an act's kind were done.
fn done(acts: &[ScriptEvent], past: &[Choice], act: &ScriptEvent) -> usize
    ensures { result ≡ done_of acts.now past.now act.now }
{
    past.iter()
        .filter(|choice| is_kind(acts, act, **choice))
        .count()
}

/// How often a packet was given to a member.
fn times(acts: &[ScriptEvent], past: &[Choice], packet: u32, member: u8) -> usize
    ensures { result ≡ times_of acts.now past.now packet member }
{
    past.iter()
        .filter(|choice| is_given(acts, packet, member, **choice))
        .count()
}

/// Whether an act is due: as many acts of its kind were done as stand before it.
fn act_is_due(acts: &[ScriptEvent], past: &[Choice], index: usize, act: &ScriptEvent) -> bool
    requires { index ≤ length acts.now }
    ensures { result ≡ act_due acts.now past.now index act.now }
{
    same_kind(act, act) && rank(acts, index, act) == done(acts, past, act)
}

/// Whether an event is due by a choice.
fn is_due(acts: &[ScriptEvent], repeats: u16, past: &[Choice], choice: Choice) -> bool
    ensures { result ≡ due_in acts.now repeats past.now choice }
{
    match choice {
        Choice::Act(index) => match acts.get(index as usize) {
            Some(act) => act_is_due(acts, past, index as usize, act),
            None => false,
        },
        Choice::Give(packet, member) => {
            times(acts, past, packet, member) < usize::from(repeats) + 1
        }
    }
}

/// The member of an event.
fn member_in(acts: &[ScriptEvent], choice: Choice) -> u8
    ensures { result ≡ event.member_of (event_in acts.now choice) }
{
    match choice {
        Choice::Act(index) => match acts.get(index as usize) {
            Some(act) => member_of(act),
            None => 0,
        },
        Choice::Give(_, member) => member,
    }
}

/// Whether an event is due by a choice, and one of a member of the group.
pub(crate) fn may_be<T: Trial>(trial: &T, past: &[Choice], choice: Choice) -> bool
    ensures { result ≡ due_by (T.family trial.now) past.now choice }
{
    is_due(trial.acts(), trial.repeats(), past, choice)
        && member_in(trial.acts(), choice) < trial.members()
}
