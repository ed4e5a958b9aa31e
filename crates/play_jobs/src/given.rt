//! The job `replay` by the traces of a file.

ghost use Rattle.std.specs.Prelude.{◌≤◌, length};
ghost use Rattle.bypass_laws.specs.Making.{IsSound};
ghost use Rattle.stack_judge.specs.Answer.{stack_tree};
ghost use Rattle.job_ends.specs.Comes.{Comes, around};
ghost use Rattle.job_ends.specs.Shown.{shown_end};
ghost use Rattle.job_mean.specs.Job as job;
ghost use Rattle.play_jobs.specs.Traces.{PlaysTraces};
ghost use Rattle.script_mean.specs.Script.{IsRunnable};
ghost use Rattle.stack_play.specs.Turns.{most_events};

use crate::played::ending;
use crate::playing::{Wanted, play_with};
use crate::script::fetch_script;
use crate::traces::fetch_traces;
use file_jobs::fetch_stack;
use group_open::has_room;
use job_ends::Ending;
use job_text::ReplayWith;
use outside::{Shelf, Sink};
use script_mean::Script;
use stack_judge::Stack;
use std::alloc::Global;
use std::mem::forget;

/// Replays a script over a stack file by the bypasses whose traces a file holds, and writes its report.
pub fn replay_with<S: Shelf, O: Sink>(
    alloc: Global,
    replay: &ReplayWith<'_>,
    shelf: &mut S,
    out: &mut O,
) -> Ending
    ensures { Comes (job.replay_with replay.now.file.now replay.now.script.now replay.now.traces.now replay.now.events
        replay.now.wire replay.now.count)
        (around S.Shelf O.Sink shelf.old shelf.new out.old out.new) (shown_end result) }
{
    match fetch_stack(alloc, replay.file, shelf) {
        Ok(stack) => match fetch_script(alloc, replay.script, shelf) {
            Ok(script) => play_traces(alloc, replay, stack, &script, shelf, out),
            Err(ending) => ending,
        },
        Err(ending) => ending,
    }
}

/// Replays a script that was read over a stack by the bypasses whose traces a file holds, and writes its report. The
/// rows of the members are judged before the traces are read. The memory of the bypasses isn't given back before the
/// program ends.
fn play_traces<S: Shelf, O: Sink>(
    alloc: Global,
    replay: &ReplayWith<'_>,
    stack: Stack,
    script: &Script,
    shelf: &mut S,
    out: &mut O,
) -> Ending
    requires sound { IsSound (stack_tree stack) }
    requires runs { IsRunnable script.now }
    requires few { length script.now.events ≤ most_events }
    ensures { PlaysTraces (stack_tree stack) script.now replay.now.traces.now replay.now.events replay.now.wire
        replay.now.count
        (around S.Shelf O.Sink shelf.old shelf.new out.old out.new) (shown_end result) }
{
    if !has_room(&stack, script.members) {
        return Ending::TooManyRows;
    }
    match fetch_traces(alloc, &stack, replay.traces, shelf) {
        Ok(bypasses) => {
            let wanted = Wanted {
                script,
                events: replay.events,
                wire: replay.wire,
                count: replay.count,
            };
            let run = play_with(alloc, &bypasses, stack, wanted, out);
            forget(bypasses);
            ending(run)
        }
        Err(ending) => ending,
    }
}
