//! The job `replay`.

ghost use Rattle.job_mean.specs.Job as job;
ghost use Rattle.job_ends.specs.Comes.{Comes, around};
ghost use Rattle.job_ends.specs.Shown.{shown_end};
ghost use Rattle.group_mean.specs.Shown.{shown_mode};

use crate::played::ending;
use crate::playing::{Wanted, play};
use crate::script::fetch_script;
use file_jobs::fetch_stack;
use job_ends::Ending;
use job_text::Replay;
use outside::{Shelf, Sink};
use std::alloc::Global;

/// Replays a script over a stack file, and writes its report.
pub fn replay_script<S: Shelf, O: Sink>(
    alloc: Global,
    replay: &Replay<'_>,
    shelf: &mut S,
    out: &mut O,
) -> Ending
    ensures { Comes (job.replay replay.now.file.now replay.now.script.now (shown_mode replay.now.mode)
        replay.now.events replay.now.wire replay.now.count)
        (around S.Shelf O.Sink shelf.old shelf.new out.old out.new) (shown_end result) }
{
    match fetch_stack(alloc, replay.file, shelf) {
        Ok(stack) => match fetch_script(alloc, replay.script, shelf) {
            Ok(script) => {
                let wanted = Wanted {
                    script: &script,
                    events: replay.events,
                    wire: replay.wire,
                    count: replay.count,
                };
                ending(play(alloc, replay.mode, stack, wanted, out))
            }
            Err(ending) => ending,
        },
        Err(ending) => ending,
    }
}
