//! The job that the words name, done over a shelf, a sink and a network.

ghost use Rattle.std.specs.Prelude.{map, Some};
ghost use Rattle.std.specs.String.{string_bytes};
ghost use Rattle.job_mean.specs.Job.{job_of_words};
ghost use Rattle.job_text.specs.Shown.{shown_job};
ghost use Rattle.job_ends.specs.Comes.{around};
ghost use Rattle.job_ends.specs.Shown.{shown_end};
ghost use Rattle.node_jobs.specs.Comes.{beyond};
ghost use Rattle.stackc_run.specs.Performed.{Performed};

use bypass_jobs::{pack, synthesize};
use file_jobs::{audit_report, check_stack};
use job_ends::Ending;
use job_text::{Job, job};
use live_outside::{LiveLinks, LiveSink};
use node_jobs::run_node;
use outside::{Clock, Shelf};
use play_jobs::{explain_script, load_stack, replay_script, replay_with};
use std::alloc::Global;

/// Does the job that the words name, and answers how it ended.
pub(crate) fn perform<S: Shelf, O: LiveSink, N: LiveLinks, C: Clock>(
    alloc: Global,
    words: &[String],
    shelf: &mut S,
    out: &mut O,
    links: &mut N,
    clock: &mut C,
) -> Ending
    ensures { Performed (job_of_words (map string_bytes words.now))
        (around S.Shelf O.Sink shelf.old shelf.new out.old out.new)
        (beyond N.Links C.Clock links.old links.new clock.old clock.new) (shown_end result) }
{
    match job(alloc, words) {
        Ok(Some(job)) => perform_job(alloc, &job, shelf, out, links, clock),
        Ok(None) => Ending::Words,
        Err(_) => Ending::Memory,
    }
}

/// Does a job.
fn perform_job<S: Shelf, O: LiveSink, N: LiveLinks, C: Clock>(
    alloc: Global,
    job: &Job<'_>,
    shelf: &mut S,
    out: &mut O,
    links: &mut N,
    clock: &mut C,
) -> Ending
    ensures { Performed (Some (shown_job job.now))
        (around S.Shelf O.Sink shelf.old shelf.new out.old out.new)
        (beyond N.Links C.Clock links.old links.new clock.old clock.new) (shown_end result) }
{
    match job {
        Job::Check(file) => check_stack(alloc, *file, shelf, out),
        Job::Synth(file) => synthesize(alloc, *file, shelf, out),
        Job::Pack(file) => pack(alloc, *file, shelf, out),
        Job::Audit(audit) => audit_report(alloc, audit.file, audit.law, shelf, out),
        Job::Replay(replay) => replay_script(alloc, replay, shelf, out),
        Job::ReplayWith(replay) => replay_with(alloc, replay, shelf, out),
        Job::Explain(explain) => explain_script(alloc, explain, shelf, out),
        Job::Load(load) => load_stack(alloc, load, shelf, out),
        Job::Node(node) => run_node(alloc, node, shelf, out, links, clock),
    }
}
