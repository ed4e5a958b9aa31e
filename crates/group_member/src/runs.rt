//! The run of a step.

ghost use Rattle.std.specs.Prelude.{◌^◌, ◌≤◌};
ghost use Rattle.chain_laws.specs.Runs.{TypedStack};
ghost use Rattle.stack_judge.specs.Answer.{stack_tree};
ghost use Rattle.stack_queue.specs.Pending.{first_task};
ghost use Rattle.group_member.specs.Working.{CanRun, HasRun};

use crate::works::Works;
use layer_eval::Predicted;
use pool_laws::law_accepted_is_light;
use stack_judge::Stack;
use stack_queue::{law_entries_fit, run};

/// Runs the layers from the only task that is pending. What comes out is kept until it is gathered.
pub(crate) fn run_layers(works: &mut Works, stack: &Stack, visits: &mut u64) -> Predicted
    requires typed { TypedStack (stack_tree stack.now) }
    requires can { CanRun (stack_tree stack.now) works.old (first_task works.old.tasks.items) }
    requires visits { visits.old ≤ 2 ^ 63 }
    ensures { HasRun (stack_tree stack.now) works.old (first_task works.old.tasks.items) visits.old works.new visits.new
        result }
{
    law_entries_fit();
    law_accepted_is_light();
    stack.law_accepted();
    let layers = works.layers.as_mut_slice();
    run(
        layers,
        stack,
        &mut works.pool,
        &mut works.tasks,
        &mut works.outs,
        visits,
    )
}
