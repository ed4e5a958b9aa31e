//! Why the steps of a script weren't common.

ghost use Rattle.std.specs.Prelude.{◌≤◌, length};
ghost use Rattle.bypass_laws.specs.Making.{IsSound};
ghost use Rattle.stack_judge.specs.Answer.{stack_tree};
ghost use Rattle.layer_ast.specs.View.{file_tree};
ghost use Rattle.miss_mean.specs.Text.{explained_lines};
ghost use Rattle.outside.specs.Tells.{tells_of};
ghost use Rattle.script_mean.specs.Script.{IsRunnable};
ghost use Rattle.play_jobs.specs.Play.{Plays};
ghost use Rattle.stack_mean.specs.Plans.{plans_of};
ghost use Rattle.stack_play.specs.Turns.{most_events};

use crate::error::PlayError;
use group_open::{Examination, open_examined};
use layer_ast::File;
use miss_explain::{Explanation, Texts, explain};
use outside::Sink;
use script_mean::{GroupLine, Script};
use stack_judge::Stack;
use std::alloc::Global;

/// Plays a script by bypasses in the world in which it begins, and writes why its steps weren't common: a line for
/// each, with lines of the file that the stack is of.
pub(crate) fn explain_steps<'a, O: Sink>(
    alloc: Global,
    file: &'a File,
    stack: Stack,
    script: &'a Script,
    out: &mut O,
) -> Result<(), PlayError>
    requires sound { IsSound (stack_tree stack) }
    requires runs { IsRunnable script.now }
    requires few { length script.now.events ≤ most_events }
    ensures { Plays (stack_tree stack) script.now.members
        (explained_lines (file_tree file.now) (stack_tree stack) (plans_of (stack_tree stack)) script.now)
        (tells_of O.Sink out.old) (tells_of O.Sink out.new) result }
{
    let line = GroupLine {
        group: script.group,
        stamp: script.stamp,
        members: script.members,
    };
    let examination = open_examined(alloc, stack, line)?;
    let Examination {
        stack,
        plans,
        entries,
        outputs,
        mut group,
    } = examination;
    let texts = Texts {
        file,
        stack: &stack,
        plans: &plans,
        entries: &entries,
    };
    let explanation = Explanation { script, texts };
    let wrote = explain(alloc, &mut group, outputs, explanation, out);
    group.close();
    wrote?;
    Ok(())
}
