//! Events of choices that happen in a group.

ghost use Rattle.std.specs.Prelude.{◌≡◌, length};
ghost use Rattle.family_search.specs.Trying.{event_in};
ghost use Rattle.group_feed.specs.Standing.{Stands, Stays};
ghost use Rattle.run_mean.specs.World as mean;
ghost use Rattle.stack_mean.specs.Acceptance.{largest_weight};
ghost use Rattle.stack_mean.specs.Plans.{plans_of};
ghost use Rattle.family_group.specs.Playing.{FeedsOne, PlaysAll, took, took_step};

use family_search::Choice;
use group_feed::Feed;
use msg_core::Memory;
use script_mean::{ScriptEvent, member_of};
use step_outputs::Outputs;
use view_core::{Did, Stepped};

/// Whether a member took what it was given.
fn is_taken(did: Did) -> bool
    ensures { result ≡ took did }
{
    match did {
        Did::Stepped(stepped) => is_step(stepped),
        _ => false,
    }
}

/// Whether a step was taken.
fn is_step(stepped: Stepped) -> bool
    ensures { result ≡ took_step stepped }
{
    match stepped {
        Stepped::Taken { .. } => true,
        Stepped::Refused(_) => false,
    }
}

/// An event happens in a group of this many members, and it is told whether its member took it. An event of a member
/// that the group doesn't have changes nothing, and nobody takes it.
fn feed_one<G: Feed>(
    group: &mut G,
    outputs: &mut Outputs,
    members: u8,
    event: &ScriptEvent,
) -> Result<bool, Memory>
    requires members { members ≡ length (G.group group.old).members }
    requires out { outputs.old.places ≡ largest_weight (G.group group.old).stack }
    ensures fed { (w : mean.World) → Stands (G.group group.old) w →
        (G.group group.old).plans ≡ plans_of (G.group group.old).stack →
        FeedsOne (G.group group.old) w event.now (G.group group.new) result }
    ensures stays { Stays (G.group group.old) (G.group group.new) }
    ensures places { outputs.new.places ≡ outputs.old.places }
{
    if member_of(event) >= members {
        return Ok(false);
    }
    let mut visits = 0;
    let did = group.feed(event, outputs, &mut visits)?;
    Ok(is_taken(did))
}

/// The same of the event of a choice.
pub fn play_one<G: Feed>(
    group: &mut G,
    outputs: &mut Outputs,
    members: u8,
    acts: &[ScriptEvent],
    choice: Choice,
) -> Result<bool, Memory>
    requires members { members ≡ length (G.group group.old).members }
    requires out { outputs.old.places ≡ largest_weight (G.group group.old).stack }
    ensures fed { (w : mean.World) → Stands (G.group group.old) w →
        (G.group group.old).plans ≡ plans_of (G.group group.old).stack →
        FeedsOne (G.group group.old) w (event_in acts.now choice) (G.group group.new) result }
    ensures stays { Stays (G.group group.old) (G.group group.new) }
    ensures places { outputs.new.places ≡ outputs.old.places }
{
    match choice {
        Choice::Act(index) => match acts.get(index as usize) {
            Some(event) => feed_one(group, outputs, members, event),
            None => {
                let event = ScriptEvent::Show(0);
                feed_one(group, outputs, members, &event)
            }
        },
        Choice::Give(packet, member) => {
            let event = ScriptEvent::Give(packet, member);
            feed_one(group, outputs, members, &event)
        }
    }
}

/// How many packets were sent in a group.
pub fn sent<G: Feed>(group: &G) -> u64
    ensures { (w : mean.World) → Stands (G.group group.now) w → result ≡ length w.packets }
{
    group.next_number() - 1
}

/// The events of choices happen in a group, one after the other.
pub fn play_all<G: Feed>(
    group: &mut G,
    outputs: &mut Outputs,
    members: u8,
    acts: &[ScriptEvent],
    past: &[Choice],
) -> Result<(), Memory>
    requires members { members ≡ length (G.group group.old).members }
    requires out { outputs.old.places ≡ largest_weight (G.group group.old).stack }
    ensures played { (w : mean.World) → Stands (G.group group.old) w →
        (G.group group.old).plans ≡ plans_of (G.group group.old).stack →
        PlaysAll (G.group group.old) acts.now w past.now (G.group group.new) result }
    ensures stays { Stays (G.group group.old) (G.group group.new) }
    ensures places { outputs.new.places ≡ outputs.old.places }
{
    for choice in past {
        play_one(group, outputs, members, acts, *choice)?;
    }
    Ok(())
}
