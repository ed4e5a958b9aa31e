//! Runs.

ghost use Rattle.std.specs.Prelude.{◌≡◌, ℕ, ◌+◌, ◌^◌, ◌≤◌, not, List, [], ◌∷◌, ◌++◌, map, length};
ghost use Rattle.std.specs.List.{flat_map};
ghost use Rattle.circular_buffer.specs.Buffer.{buffer};
ghost use Rattle.slot_pool.specs.Held.{Held, spare};
ghost use Rattle.slot_pool.specs.References.{Moved, Covers};
ghost use Rattle.weight_laws.specs.Visits.{task_weight, task_joins};
ghost use Rattle.weight_laws.specs.Runs.{Enters};
ghost use Rattle.chain_laws.specs.Runs.{TypedStack, AreChainedStates, IsChainedTask};
ghost use Rattle.stack_judge.specs.Answer.{stack_tree};
ghost use Rattle.layer_mean.specs.Queue as spec;
ghost use Rattle.layer_eval.specs.Did.{as_predicted};
ghost use Rattle.pool_message.specs.Seen.{event_refs, EventLies};
ghost use Rattle.pool_message.specs.Sent.{sent_refs, sent_seen, SentLie};
ghost use Rattle.layer_stage.specs.Room.{CountsWithin};
ghost use Rattle.stack_queue.specs.Pending.{first_task, task_seen};
ghost use Rattle.stack_queue.specs.Stages.{Stand, most_at_first, run_of};
ghost use Rattle.stack_queue.specs.Taken.{taken_after};

use crate::tasks::Tasks;
use layer_eval::Predicted;
use layer_stage::Stage;
use pool_message::Events;
use slot_pool::Pool;
use stack_judge::Stack;

/// Runs the layers of a stack from the one task that is pending, until no task is left: each task is an event that its
/// layer takes, or one that comes out at an edge. Says whether each visit decided as predicted. `tasks` is left empty,
/// and no memory is taken.
pub fn run<S: Stage>(
    stages: &mut [S],
    stack: &Stack,
    pool: &mut Pool,
    tasks: &mut Tasks,
    out: &mut Events,
    visits: &mut u64,
) -> Predicted
    // The stages are the stack's, which is typed; their states are chained, and so is the event, which is one with
    // which a run begins.
    requires typed { TypedStack (stack_tree stack.now) }
    requires stand { Stand S.place S.layer S.ready (stack_tree stack.now) pool.old stages.old }
    requires chained { AreChainedStates (stack_tree stack.now) (map (S.state pool.old) stages.old) }
    requires first { IsChainedTask (stack_tree stack.now) (task_seen pool.old (first_task tasks.old.items)) }
    requires enters { Enters (stack_tree stack.now) (first_task tasks.old.items).at
        (first_task tasks.old.items).direction (first_task tasks.old.items).event.kind }

    // What they refer to is among what the pool counts.
    requires event { EventLies pool.old (first_task tasks.old.items).event }
    requires lie { SentLie pool.old out.old.items }
    requires covers { Covers pool.old
        (flat_map S.refs stages.old ++ (event_refs (first_task tasks.old.items).event ++ sent_refs out.old.items)) }
    requires counts { CountsWithin most_at_first pool.old }

    // There is room for what can follow from the event.
    requires slots { task_joins (stack_tree stack.now) (task_seen pool.old (first_task tasks.old.items)) ≤ spare
        pool.old }
    requires tasks { (tasks.old.items ≡ first_task tasks.old.items ∷ []) ×
        (task_weight (stack_tree stack.now) (task_seen pool.old (first_task tasks.old.items)) ≤ tasks.old.capacity) }
    requires out { length out.old.items + task_weight (stack_tree stack.now)
        (task_seen pool.old (first_task tasks.old.items)) ≤ out.old.capacity }
    requires visits { visits.old ≤ 2 ^ 63 }
    ensures states { map (S.state pool.new) stages.new ≡
        (run_of (stack_tree stack.now) (map (S.state pool.old) stages.old)
        (task_seen pool.old (first_task tasks.old.items))).world.states }
    ensures outs { sent_seen pool.new out.new.items ≡ sent_seen pool.old out.old.items ++
        (run_of (stack_tree stack.now) (map (S.state pool.old) stages.old)
        (task_seen pool.old (first_task tasks.old.items))).world.outs }
    ensures predicted { result ≡
        as_predicted (run_of (stack_tree stack.now) (map (S.state pool.old) stages.old)
        (task_seen pool.old (first_task tasks.old.items))).world.decided }
    ensures visits { visits.new ≡
        visits.old + (run_of (stack_tree stack.now) (map (S.state pool.old) stages.old)
        (task_seen pool.old (first_task tasks.old.items))).world.visits }
    ensures taken { map S.taken stages.new ≡ taken_after (stack_tree stack.now) (map (S.state pool.old) stages.old)
        (task_seen pool.old (first_task tasks.old.items)) (map S.taken stages.old) }
    ensures done { (run_of (stack_tree stack.now) (map (S.state pool.old) stages.old)
        (task_seen pool.old (first_task tasks.old.items))).tasks ≡ [] }

    // The references of the stages, of the event and of what came out have moved in the pool, and no others.
    ensures moved { Moved pool.old pool.new
        (flat_map S.refs stages.old ++ (event_refs (first_task tasks.old.items).event ++ sent_refs out.old.items))
        (flat_map S.refs stages.new ++ sent_refs out.new.items) }
    ensures spent { spare pool.old ≤ spare pool.new + task_joins (stack_tree stack.now)
        (task_seen pool.old (first_task tasks.old.items)) }
    ensures stand { Stand S.place S.layer S.ready (stack_tree stack.now) pool.new stages.new }
    ensures lie { SentLie pool.new out.new.items }
    ensures tasks { tasks.new ≡ buffer [] tasks.old.capacity }
    ensures capacity { out.new.capacity ≡ out.old.capacity }
{
    let mut predicted = Predicted::usual();
    let places = stack.places();
    while let Some(at) = tasks.first() {
        let here = tasks.pass(at, stages, visits);
        if is_edge(places, here) {
            tasks.leave(out);
            continue;
        }
        let stage = &mut stages[usize::from(here) - 1];
        tasks.visit(here, stage, pool, &mut predicted);
        *visits += 1;
    }
    predicted
}

/// Whether a task stands at an edge of a stack with `places` places.
fn is_edge(places: u8, at: u16) -> bool
    ensures { result ≡ not (spec.is_place places at) }
{
    at == 0 || at > u16::from(places)
}
