//! The job `load`.

ghost use Rattle.std.specs.Prelude.{◌≡◌};
ghost use Rattle.job_mean.specs.Job as job;
ghost use Rattle.job_ends.specs.Comes.{Comes, around};
ghost use Rattle.job_ends.specs.Shown.{shown_end};
ghost use Rattle.group_mean.specs.Shown.{shown_mode};

use crate::counting::play_load;
use crate::played::ending;
use file_jobs::fetch_stack;
use job_ends::Ending;
use job_text::Load;
use outside::{Shelf, Sink};
use script_text::Workload;
use std::alloc::Global;

/// What the script of a load is made from.
fn workload_of(load: &Load<'_>) -> Workload
    ensures { result ≡ record {
      seed = load.now.seed;
      events = load.now.events;
      members = load.now.members;
      raw =
          load.now.raw;
    } }
{
    Workload {
        seed: load.seed,
        events: load.events,
        members: load.members as u8,
        raw: load.raw,
    }
}

/// Replays a script that is made from a seed, and writes how many lines of each kind its report has.
pub fn load_stack<S: Shelf, O: Sink>(
    alloc: Global,
    load: &Load<'_>,
    shelf: &mut S,
    out: &mut O,
) -> Ending
    ensures { Comes (job.load load.now.file.now load.now.seed load.now.events load.now.members load.now.raw
        (shown_mode load.now.mode))
        (around S.Shelf O.Sink shelf.old shelf.new out.old out.new) (shown_end result) }
{
    match fetch_stack(alloc, load.file, shelf) {
        Ok(stack) => ending(play_load(alloc, load.mode, stack, workload_of(load), out)),
        Err(ending) => ending,
    }
}
