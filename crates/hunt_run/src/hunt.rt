//! Runs over the stack of a file, until one breaks the law.

ghost use Rattle.std.specs.Prelude.{◌≡◌, ◌+◌, OnOk, true};
ghost use Rattle.stack_judge.specs.Answer.{stack_tree};
ghost use Rattle.output_mean.specs.Judged.{Means};
ghost use Rattle.hunt_run.specs.Looks.{Counts, Goes, IsHeldLine, Looks, Makes};
ghost use Rattle.hunt_run.specs.Reading.{request_shown};

use crate::found::find;
use crate::told::holds_line;
use crate::watch::Watch;
use crate::words::Request;
use file_judge::judge;
use group_open::has_room;
use hunt_search::{Aim, Search};
use job_ends::Ending;
use outside::Clock;
use report_lines::Line;
use stack_judge::Stack;
use std::alloc::Global;
use std::io::Write;

/// What is written, and whether it is a breach.
#[derive(Drop)]
pub(crate) struct Output {
    pub text: Line,
    pub is_breach: bool,
}

/// What a hunt over the bytes of a stack file writes, or how it ends.
pub(crate) fn look<C: Clock + Drop, N: Write + Drop>(
    alloc: Global,
    request: Request<'_>,
    file: &[u8],
    watch: &mut Watch<C, N>,
) -> Result<Output, Ending>
    ensures { Looks (request_shown request.entry) file.now result }
{
    let stack = judge(alloc, file)?;
    look_over(alloc, request, file, stack, watch)
}

/// What a hunt over the stack that a file means writes, or how it ends.
fn look_over<C: Clock + Drop, N: Write + Drop>(
    alloc: Global,
    request: Request<'_>,
    file: &[u8],
    stack: Stack,
    watch: &mut Watch<C, N>,
) -> Result<Output, Ending>
    requires { Means file.now (stack_tree stack) }
    ensures { Looks (request_shown request.entry) file.now result }
{
    if !has_room(&stack, request.members) {
        drop(stack);
        return Err(Ending::TooManyRows);
    }
    let aim = Aim {
        law: request.law,
        members: request.members,
        events: request.events,
        style: request.style,
    };
    match Search::new(alloc, stack, aim) {
        Ok(mut search) => {
            let made = all_runs(alloc, request, file, &mut search, watch);
            search.close();
            made
        }
        Err(_) => Err(Ending::Memory),
    }
}

/// Makes all runs, up to one that breaks the law, or until the time is up. The runs that are told are those that the
/// search made.
fn all_runs<C: Clock + Drop, N: Write + Drop>(
    alloc: Global,
    request: Request<'_>,
    file: &[u8],
    search: &mut Search,
    watch: &mut Watch<C, N>,
) -> Result<Output, Ending>
    ensures goes { Goes (request_shown request.entry) file.now result }
    ensures counts { Counts search.old search.new result }
{
    watch.begin();
    for run in 0..request.runs {
        if watch.is_up(request.seconds) {
            watch.end();
            return held(alloc, run);
        }
        watch.tell(alloc, run, request.runs);
        match one_run(alloc, request, file, search, run) {
            Ok(None) => {}
            Ok(Some(text)) => {
                watch.end();
                return Ok(found(text));
            }
            Err(ending) => return Err(ending),
        }
    }
    watch.end();
    held(alloc, request.runs)
}

/// A find is written.
fn found(text: Line) -> Output
    ensures { (result.text ≡ text) × (result.is_breach ≡ true) }
{
    Output {
        text,
        is_breach: true,
    }
}

/// Makes a run, and answers what is written where it breaks the law. A find that its bytes don't confirm is none.
fn one_run(
    alloc: Global,
    request: Request<'_>,
    file: &[u8],
    search: &mut Search,
    run: u32,
) -> Result<Option<Line>, Ending>
    ensures makes { Makes (request_shown request.entry) file.now result }
    ensures counted { OnOk result (search.new ≡ search.old + 1) }
{
    match search.run(u64::from(request.seed) + u64::from(run)) {
        Ok(None) => Ok(None),
        Ok(Some(draft)) => match find(alloc, request, file, &draft) {
            Ok(found) => Ok(found),
            Err(_) => Err(Ending::Memory),
        },
        Err(_) => Err(Ending::Memory),
    }
}

/// What is written where no run broke the law.
fn held(alloc: Global, runs: u32) -> Result<Output, Ending>
    ensures { IsHeldLine runs result }
{
    match holds_line(alloc, runs) {
        Ok(text) => Ok(Output {
            text,
            is_breach: false,
        }),
        Err(_) => Err(Ending::Memory),
    }
}
