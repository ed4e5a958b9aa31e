//! Reports of scripts, and what the audit finds in them.

ghost use Rattle.std.specs.Prelude.{◌≡◌, ◌≤◌, IfOk, length};
ghost use Rattle.outside.specs.Tells.{tells_of};
ghost use Rattle.script_mean.specs.Script.{IsRunnable};
ghost use Rattle.family_group.specs.Playing.{script_in};
ghost use Rattle.family_world.specs.Judging.{Finds, Judges, Reports, Writes};
ghost use Rattle.family_world.specs.Standing.{IsAt, IsKept, first_of};

use crate::playground::{Playground, begin};
use audit_judge::{Finding, Law, audit};
use family_group::{script_with, write_script};
use family_search::Choice;
use msg_core::Memory;
use outside::{Sink, StillSink};
use report_text::Manner;
use script_mean::Script;
use std::alloc::Global;

/// The most events of a script that is judged.
const MOST_EVENTS: usize = 65_535;

/// The group plays a script from its beginning on, and the report is written.
fn write(play: &mut Playground, script: &Script, out: &mut StillSink) -> Result<(), Memory>
    requires first { IsAt script.now (first_of play.old.ground script.now) play.old play.old }
    requires runs { IsRunnable script.now }
    requires few { length script.now.events ≤ 65535 }
    ensures { Writes script.now play.old play.new (tells_of ⟦<StillSink as Sink>⟧ out.old)
        (tells_of ⟦<StillSink as Sink>⟧ out.new) result }
{
    play.is_named = false;
    let manner = Manner {
        stack: play.ground.stack(),
        plans: play.ground.plans(),
        events: false,
        wire: false,
    };
    match write_script(manner, &mut play.world, &mut play.gear, script, out) {
        Ok(()) => {
            play.is_named = true;
            Ok(())
        }
        Err(_) => Err(Memory),
    }
}

/// Whether a report keeps a law.
fn finds(alloc: Global, report: &[u8], law: Law) -> Result<bool, Memory>
    ensures { Finds law report.now result }
{
    match audit(alloc, report, law) {
        Ok(Finding::Holds) => Ok(true),
        Ok(Finding::Breach(_, _)) => Ok(false),
        Err(_) => Err(Memory),
    }
}

/// A copy of bytes.
fn copy_of(alloc: Global, bytes: &[u8]) -> Result<Vec<u8>, Memory>
    ensures { IfOk result (λ copy. copy.items ≡ bytes.now) }
{
    let mut copy = Vec::with_capacity(alloc, bytes.len())?;
    copy.extend_from_slice(bytes)?;
    Ok(copy)
}

/// The group plays a script from its beginning on: its report.
fn tell(alloc: Global, play: &mut Playground, script: &Script) -> Result<Vec<u8>, Memory>
    requires kept { IsKept script.now play.old }
    requires runs { IsRunnable script.now }
    requires few { length script.now.events ≤ 65535 }
    ensures { Reports script.now play.old play.new result }
{
    begin(alloc, play, script)?;
    let mut out = StillSink::of(alloc);
    write(play, script, &mut out)?;
    copy_of(alloc, out.contents())
}

/// The report of the script of the events of choices.
pub(crate) fn report(
    alloc: Global,
    play: &mut Playground,
    acts: &Script,
    past: &[Choice],
) -> Result<Vec<u8>, Memory>
    requires kept { IsKept acts.now play.old }
    requires runs { IsRunnable (script_in acts.now past.now) }
    ensures { Reports (script_in acts.now past.now) play.old play.new result }
{
    if past.len() > MOST_EVENTS {
        return Err(Memory);
    }
    let script = script_with(alloc, acts, past)?;
    tell(alloc, play, &script)
}

/// Whether the report of the events of choices keeps a law.
pub(crate) fn keeps(
    alloc: Global,
    play: &mut Playground,
    acts: &Script,
    law: Law,
    past: &[Choice],
) -> Result<bool, Memory>
    requires kept { IsKept acts.now play.old }
    requires runs { IsRunnable (script_in acts.now past.now) }
    ensures { Judges (script_in acts.now past.now) law play.old play.new result }
{
    let report = report(alloc, play, acts, past)?;
    finds(alloc, &report, law)
}
