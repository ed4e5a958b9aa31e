//! Where acts are played.

ghost use Rattle.std.specs.Prelude.{◌≡◌, true};
ghost use Rattle.script_mean.specs.Script.{IsRunnable};
ghost use Rattle.family_world.specs.Standing.{Begins, Goes, IsKept, Restarts, Sends, Takes};

use family_group::{Gear, play_all, play_one, sent};
use family_search::Choice;
use group_ground::Ground;
use group_world::World;
use msg_core::Memory;
use script_mean::{GroupLine, Script};
use std::alloc::Global;
use std::mem::replace;

/// A ground with a group over it, what the group is played with, and whether the group is known to have the number and
/// the stamp of the acts. It can't be let go: it is closed.
pub(crate) struct Playground {
    pub ground: Ground,
    pub world: World,
    pub gear: Gear,
    pub is_named: bool,
}

impl Playground {
    /// Lets the group go.
    pub(crate) fn close(self) {
        let Playground {
            ground: _,
            world,
            gear: _,
            is_named: _,
        } = self;
        world.close();
    }
}

/// The first line of a script.
pub(crate) fn line_of(script: &Script) -> GroupLine
    ensures group { result.group ≡ script.now.group }
    ensures stamp { result.stamp ≡ script.now.stamp }
    ensures members { result.members ≡ script.now.members }
{
    GroupLine {
        group: script.group,
        stamp: script.stamp,
        members: script.members,
    }
}

/// The group begins again, in the memory that it has if it can.
pub(crate) fn begin(alloc: Global, play: &mut Playground, acts: &Script) -> Result<(), Memory>
    requires kept { IsKept acts.now play.old }
    requires runs { IsRunnable acts.now }
    ensures { Begins acts.now play.old play.new result }
{
    if !play.is_named {
        return begin_anew(alloc, play, acts);
    }
    if restart(play, acts) {
        return Ok(());
    }
    begin_anew(alloc, play, acts)
}

/// The group begins again in the memory that it has, and it is answered whether it did.
fn restart(play: &mut Playground, _acts: &Script) -> bool
    requires kept { IsKept _acts.now play.old }
    requires named { play.old.is_named ≡ true }
    ensures { Restarts _acts.now play.old play.new result }
{
    let again = play.world.restart();
    play.is_named = again;
    again
}

/// A new group begins in place of the group.
fn begin_anew(alloc: Global, play: &mut Playground, acts: &Script) -> Result<(), Memory>
    requires kept { IsKept acts.now play.old }
    requires runs { IsRunnable acts.now }
    ensures { Begins acts.now play.old play.new result }
{
    match play.ground.begin(alloc, line_of(acts)) {
        Ok(world) => {
            let old = replace(&mut play.world, world);
            old.close();
            play.is_named = true;
            Ok(())
        }
        Err(_) => Err(Memory),
    }
}

/// The group goes to where the events of choices lead from its beginning on.
fn go_to(alloc: Global, play: &mut Playground, acts: &Script, past: &[Choice]) -> Result<(), Memory>
    requires kept { IsKept acts.now play.old }
    requires runs { IsRunnable acts.now }
    ensures { Goes acts.now past.now play.old play.new result }
{
    begin(alloc, play, acts)?;
    play.is_named = false;
    play_all(
        &mut play.world,
        &mut play.gear.outputs,
        acts.members,
        acts.events.slice(),
        past,
    )?;
    play.is_named = true;
    Ok(())
}

/// Whether a member takes the event of a choice after those of others.
pub(crate) fn takes(
    alloc: Global,
    play: &mut Playground,
    acts: &Script,
    past: &[Choice],
    choice: Choice,
) -> Result<bool, Memory>
    requires kept { IsKept acts.now play.old }
    requires runs { IsRunnable acts.now }
    ensures { Takes acts.now past.now choice play.old play.new result }
{
    go_to(alloc, play, acts, past)?;
    play.is_named = false;
    let taken = play_one(
        &mut play.world,
        &mut play.gear.outputs,
        acts.members,
        acts.events.slice(),
        choice,
    )?;
    play.is_named = true;
    Ok(taken)
}

/// How many packets were sent after the events of choices.
pub(crate) fn sent_after(
    alloc: Global,
    play: &mut Playground,
    acts: &Script,
    past: &[Choice],
) -> Result<u64, Memory>
    requires kept { IsKept acts.now play.old }
    requires runs { IsRunnable acts.now }
    ensures { Sends acts.now past.now play.old play.new result }
{
    go_to(alloc, play, acts, past)?;
    Ok(sent(&play.world))
}
