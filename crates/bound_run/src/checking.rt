//! The check over a stack, with acts.

ghost use Rattle.std.specs.Prelude.{◌≡◌};
ghost use Rattle.bypass_laws.specs.Making.{IsSound};
ghost use Rattle.bound_mean.specs.Words.{family_of};
ghost use Rattle.family_search.specs.Trying.{Answers};
ghost use Rattle.script_mean.specs.Script.{IsRunnable};
ghost use Rattle.stack_judge.specs.Answer.{stack_tree};
ghost use Rattle.bound_run.specs.Looks.{IsLine, Looks};
ghost use Rattle.bound_run.specs.Reading.{request_shown};

use crate::breach::broken;
use crate::output::{Kind, Output};
use crate::told::{holds_line, holds_to_line};
use crate::watch::Watch;
use crate::words::Request;
use family_search::{Found, search};
use family_world::{Bounds, Scene};
use group_member::OpenError;
use job_ends::Ending;
use msg_core::Memory;
use outside::Clock;
use report_lines::Line;
use script_mean::Script;
use stack_judge::Stack;
use std::alloc::Global;
use std::io::Write;

/// What a check over a stack with these acts writes, or how it ends.
pub(crate) fn look<C: Clock + Drop, N: Write + Drop>(
    alloc: Global,
    request: Request<'_>,
    stack: Stack,
    acts: Script,
    watch: &mut Watch<C, N>,
) -> Result<Output, Ending>
    requires sound { IsSound (stack_tree stack) }
    requires runs { IsRunnable acts }
    ensures { Looks (family_of (request_shown request.entry) (stack_tree stack) acts) result }
{
    let bounds = Bounds {
        law: request.law,
        events: request.events,
        repeats: request.repeats,
    };
    match Scene::open(alloc, stack, acts, bounds) {
        Ok(mut scene) => {
            watch.begin(request.seconds);
            let made = try_all(alloc, request.events, &mut scene, watch);
            watch.end();
            scene.close();
            made
        }
        Err(OpenError::TooLarge) => Err(Ending::TooManyRows),
        Err(OpenError::Memory) => Err(Ending::Memory),
    }
}

/// Tries all scripts of a family: what is written of that, or how the check ends.
fn try_all<C: Clock + Drop, N: Write + Drop>(
    alloc: Global,
    events: u16,
    scene: &mut Scene,
    watch: &mut Watch<C, N>,
) -> Result<Output, Ending>
    requires { scene.old.events ≡ events }
    ensures { Looks scene.old result }
{
    match search(alloc, scene, watch, events) {
        Ok(found) => answer(alloc, scene, found, watch.scripts()),
        Err(_) => Err(Ending::Memory),
    }
}

/// What is written of what was found.
fn answer(alloc: Global, scene: &mut Scene, found: Found, scripts: u64) -> Result<Output, Ending>
    requires { Answers scene.old found }
    ensures { Looks scene.old result }
{
    match found {
        Found::Holds => held(holds_line(alloc, scene, scripts), Kind::Held),
        Found::HoldsTo(most) => held(holds_to_line(alloc, scene, most, scripts), Kind::HeldTo),
        Found::Breach(past) => broken(alloc, scene, &past),
    }
}

/// A line that is written, and what it tells.
fn held(line: Result<Line, Memory>, kind: Kind) -> Result<Output, Ending>
    ensures { IsLine line kind result }
{
    match line {
        Ok(text) => Ok(Output { text, kind }),
        Err(_) => Err(Ending::Memory),
    }
}
