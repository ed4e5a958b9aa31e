//! Tasks that are pending.

ghost use Rattle.std.specs.Prelude.{◌≡◌, ◌+◌, ◌<◌, ◌≤◌, [], ◌∷◌, ◌++◌, drop, length, map, None, IfOk, IfSome, IfNone};
ghost use Rattle.circular_buffer.specs.Buffer.{buffer};
ghost use Rattle.stack_mean.specs.Acceptance.{largest_weight};

use crate::passes::{pass_along, pass_one};
use crate::places::{beyond, end_first, first_way, go_on, put_place, stand_alone};
use layer_eval::Predicted;
use layer_mean::Envelope;
use layer_stage::Stage;
use layer_words::Dir;
use msg_core::Headers;
use pool_message::{Events, PoolEvent, ShortQueue};
use slot_pool::Pool;
use stack_judge::Stack;
use std::alloc::{AllocError, Global};
use std::marker::Model;

/// An event on its way. The lower edge of a stack is 0, its places are 1 and up, lowest first, and the upper edge is
/// one more than their number.
pub struct PoolTask {
    pub at: u16,
    pub direction: Dir,
    pub event: PoolEvent,
}

/// A task whose event is known but for its message.
#[derive(Clone, Copy)]
pub struct BareTask {
    pub at: u16,
    pub direction: Dir,
    pub envelope: Envelope,
}

/// The tasks of a run that are pending, first in, first out, in as many places as the weight of its stack: their events
/// with their directions, and beside these where each of them goes. There is one place more, for the event that a layer
/// takes.
pub struct Tasks {
    places: ShortQueue<u16>,
    events: Events,
}

impl Model for Tasks {
    ghost use Rattle.std.specs.Prelude.{◌≡◌, ◌-◌, ◌≤◌, length};
    ghost use Rattle.circular_buffer.specs.Buffer.{Buffer, buffer};
    ghost use Rattle.stack_queue.specs.Pending.{tasks_at};
    ghost use Rattle.stack_queue.specs.declared.tasks.PoolTask.{PoolTask};

    ghost Value = { Buffer PoolTask };

    ghost view = { λ t. buffer (tasks_at t.places.items t.events.items) (t.places.capacity - 1) };

    ghost invariant = { λ t. (length t.places.items ≡ length t.events.items) × (t.places.capacity ≡ t.events.capacity) ×
        (1 ≤ t.places.capacity) };
}

impl Tasks {
    ghost use Rattle.stack_judge.specs.Answer.{stack_tree};
    ghost use Rattle.slot_pool.specs.Held.{spare};
    ghost use Rattle.slot_pool.specs.References.{Moved, Covers};
    ghost use Rattle.msg_core.specs.Parts.{longest_body};
    ghost use Rattle.layer_mean.specs.Queue.{tasks_of};
    ghost use Rattle.layer_mean.specs.Visit.{step};
    ghost use Rattle.layer_desk.specs.Need.{most_above};
    ghost use Rattle.layer_eval.specs.Did.{as_predicted, both};
    ghost use Rattle.layer_stage.specs.Room.{slots_needed, places_needed, headers_met, most_counted, CountsWithin};
    ghost use Rattle.layer_stage.specs.Taken.{one_more};
    ghost use Rattle.pool_message.specs.Seen.{event_seen};
    ghost use Rattle.pool_message.specs.Sent.{CanPass};
    ghost use Rattle.stack_queue.specs.Passing.{Rest, GoesWith, Continues, StaysAt};
    ghost use Rattle.stack_queue.specs.Round.{PassesRound};
    ghost use Rattle.stack_queue.specs.Pending.{first_task, tasks_seen, tasks_refs, TasksLie};
    ghost use Rattle.stack_queue.specs.Put.{carrying_task, task_with, Puts};

    /// No task, with places for the weight of a stack.
    pub fn new(alloc: Global, stack: &Stack) -> Result<Tasks, AllocError>
        ensures { IfOk result (λ tasks. tasks ≡ buffer [] (largest_weight (stack_tree stack.now))) }
    {
        stack.law_accepted();
        let count = stack.weight() as usize + 1;
        let places = ShortQueue::with_capacity(alloc, count, 0)?;
        match Events::with_places(alloc, count) {
            Ok(events) => Ok(Tasks { places, events }),
            Err(fault) => {
                places.destroy_empty();
                Err(fault)
            }
        }
    }

    /// A task whose event has a message of these headers and a copy of these bytes becomes the last: the bytes are in a
    /// slot that was unused, and the headers where the event stands. False where the pool is full, and then nothing has
    /// changed.
    #[inline(always)]
    pub fn push_put(
        &mut self,
        task: BareTask,
        headers: &Headers,
        bytes: &[u8],
        pool: &mut Pool,
    ) -> bool
        requires room { length self.old.items < self.old.capacity }
        requires fits { length bytes.now ≤ longest_body }
        ensures { Puts pool.old self.old (carrying_task task (record { headers = headers.now; body = bytes.now }))
            pool.new self.new result }
    {
        if !self
            .events
            .push_put(task.direction, task.envelope, headers, bytes, pool)
        {
            return false;
        }
        put_place(&mut self.places, task.at);
        true
    }

    /// A task whose event has no message becomes the last.
    #[inline(always)]
    pub fn push_bare(&mut self, task: BareTask)
        requires { length self.old.items < self.old.capacity }
        ensures { self.new ≡ buffer (self.old.items ++ task_with task None ∷ []) self.old.capacity }
    {
        self.events.push_bare(task.direction, task.envelope);
        put_place(&mut self.places, task.at);
    }

    /// Where the first task stands, if there is one.
    pub fn first(&self) -> Option<u16>
        ensures none { IfNone result (self.now.items ≡ []) }
        ensures some { IfSome result (λ at. (self.now.items ≡ first_task self.now.items ∷ drop 1 self.now.items)
            × ((first_task self.now.items).at ≡ at)) }
    {
        self.places.front().copied()
    }

    /// The event of the first task comes out, and the task goes.
    pub(crate) fn leave(&mut self, out: &mut Events)
        requires some { 0 < length self.old.items }
        requires room { length out.old.items < out.old.capacity }
        ensures rest { self.new ≡ buffer (drop 1 self.old.items) self.old.capacity }
        ensures out { out.new ≡
            buffer (out.old.items ++ ((first_task self.old.items).direction, (first_task self.old.items).event) ∷ [])
            out.old.capacity }
    {
        end_first(&mut self.places);
        self.events.move_first(out);
    }

    /// Where the first task is the only one, its event passes, as it lies, the layers that have no handler for it, up
    /// to an edge or to a layer that has one. Each layer that it passes is a visit. Answers where the first task stands
    /// then.
    pub(crate) fn pass<S: Stage>(&mut self, at: u16, stages: &mut [S], visits: &mut u64) -> u16
        requires first { (self.old.items ≡ first_task self.old.items ∷ drop 1 self.old.items) ×
            ((first_task self.old.items).at ≡ at) }
        requires goes { (r : Rest) × GoesWith S.place S.layer S.refs S.ready S.state S.taken r stages.old self.old.items
            visits.old }
        ensures first { (self.new.items ≡ first_task self.new.items ∷ drop 1 self.new.items) ×
            ((first_task self.new.items).at ≡ result) }
        ensures goes { Continues S.place S.layer S.refs S.ready S.state S.taken stages.old self.old.items visits.old
            stages.new self.new.items visits.new }
        ensures stays { length self.old.items ≡ 1 → StaysAt (map S.layer stages.new) (first_task self.new.items) }
        ensures capacity { self.new.capacity ≡ self.old.capacity }
    {
        if self.events.len() != 1 {
            return at;
        }
        let to = pass_along(stages, at, self.events.first_mut(), visits);
        stand_alone(&mut self.places, to);
        to
    }

    /// A layer takes the event of the first task, which stands at a place, and what it sends becomes tasks after the
    /// others. What it decided is joined to what was decided before.
    pub(crate) fn visit<S: Stage>(
        &mut self,
        at: u16,
        stage: &mut S,
        pool: &mut Pool,
        predicted: &mut Predicted,
    )
        requires some { 0 < length self.old.items }
        requires at { (first_task self.old.items).at ≡ at }
        requires place { (1 ≤ at) × (at ≤ 255) }
        requires ready { S.ready pool.old stage.old }
        requires lie { TasksLie pool.old self.old.items }
        requires covers { Covers pool.old (S.refs stage.old ++ tasks_refs self.old.items) }
        requires counts { CountsWithin most_counted pool.old }
        requires headers { headers_met (first_task self.old.items).direction
            (event_seen pool.old (first_task self.old.items).event) ≤ most_above }
        requires slots { slots_needed (S.layer stage.old) (first_task self.old.items).direction
            (event_seen pool.old (first_task self.old.items).event) ≤ spare pool.old }
        requires places { length (drop 1 self.old.items)
            + places_needed (S.layer stage.old) (first_task self.old.items).direction
            (event_seen pool.old (first_task self.old.items).event) ≤ self.old.capacity }
        ensures state { S.state pool.new stage.new ≡
            (step (S.place stage.old) (S.layer stage.old) (S.state pool.old stage.old)
            (first_task self.old.items).direction (event_seen pool.old (first_task self.old.items).event)).state }
        ensures tasks { tasks_seen pool.new self.new.items ≡ tasks_seen pool.old (drop 1 self.old.items) ++ tasks_of at
            (step (S.place stage.old) (S.layer stage.old) (S.state pool.old stage.old)
            (first_task self.old.items).direction (event_seen pool.old (first_task self.old.items).event)).sent }
        ensures predicted { predicted.new ≡ both predicted.old (as_predicted
            (step (S.place stage.old) (S.layer stage.old) (S.state pool.old stage.old)
            (first_task self.old.items).direction (event_seen pool.old (first_task self.old.items).event)).decided) }

        // Its references, and those of the tasks, have moved in the pool, and no others.
        ensures moved { Moved pool.old pool.new (S.refs stage.old ++ tasks_refs self.old.items)
            (S.refs stage.new ++ tasks_refs self.new.items) }
        ensures spent { spare pool.old ≤ spare pool.new
            + slots_needed (S.layer stage.old) (first_task self.old.items).direction
            (event_seen pool.old (first_task self.old.items).event) }
        ensures capacity { self.new.capacity ≡ self.old.capacity }
        ensures ready { S.ready pool.new stage.new }
        ensures lie { TasksLie pool.new self.new.items }
        ensures place { S.place stage.new ≡ S.place stage.old }
        ensures layer { S.layer stage.new ≡ S.layer stage.old }
        ensures taken { S.taken stage.new ≡ one_more (S.taken stage.old) }
    {
        if self.pass_round(at, stage) {
            return;
        }
        let decided = self.bring(at, stage, pool);
        *predicted = predicted.and(decided);
    }

    /// Where others are pending, the event of the first task passes a layer that has no handler for it, and the task
    /// becomes the last. Answers whether it did; where it didn't, nothing has changed. A task that is alone was tried
    /// before.
    fn pass_round<S: Stage>(&mut self, at: u16, stage: &mut S) -> bool
        requires some { 0 < length self.old.items }
        requires at { (first_task self.old.items).at ≡ at }
        requires place { (1 ≤ at) × (at ≤ 255) }
        requires room { CanPass (first_task self.old.items).direction (first_task self.old.items).event.message }
        ensures { PassesRound S.place S.layer S.refs S.ready S.state S.taken stage.old self.old stage.new self.new
            result }
    {
        if self.events.len() < 2 {
            return false;
        }
        let direction = first_way(&self.events);
        if !pass_one(stage, self.events.first_mut()) {
            return false;
        }
        self.events.go_round();
        self.places.go_round(beyond(direction, at));
        true
    }

    /// A layer takes an event of the first task that doesn't pass. Says what it decided.
    fn bring<S: Stage>(&mut self, at: u16, stage: &mut S, pool: &mut Pool) -> Predicted
        requires some { 0 < length self.old.items }
        requires at { (first_task self.old.items).at ≡ at }
        requires place { (1 ≤ at) × (at ≤ 255) }
        requires ready { S.ready pool.old stage.old }
        requires lie { TasksLie pool.old self.old.items }
        requires covers { Covers pool.old (S.refs stage.old ++ tasks_refs self.old.items) }
        requires counts { CountsWithin most_counted pool.old }
        requires headers { headers_met (first_task self.old.items).direction
            (event_seen pool.old (first_task self.old.items).event) ≤ most_above }
        requires slots { slots_needed (S.layer stage.old) (first_task self.old.items).direction
            (event_seen pool.old (first_task self.old.items).event) ≤ spare pool.old }
        requires places { length (drop 1 self.old.items)
            + places_needed (S.layer stage.old) (first_task self.old.items).direction
            (event_seen pool.old (first_task self.old.items).event) ≤ self.old.capacity }
        ensures state { S.state pool.new stage.new ≡
            (step (S.place stage.old) (S.layer stage.old) (S.state pool.old stage.old)
            (first_task self.old.items).direction (event_seen pool.old (first_task self.old.items).event)).state }
        ensures tasks { tasks_seen pool.new self.new.items ≡ tasks_seen pool.old (drop 1 self.old.items) ++ tasks_of at
            (step (S.place stage.old) (S.layer stage.old) (S.state pool.old stage.old)
            (first_task self.old.items).direction (event_seen pool.old (first_task self.old.items).event)).sent }
        ensures predicted { result ≡ as_predicted
            (step (S.place stage.old) (S.layer stage.old) (S.state pool.old stage.old)
            (first_task self.old.items).direction (event_seen pool.old (first_task self.old.items).event)).decided }

        // Its references, and those of the tasks, have moved in the pool, and no others.
        ensures moved { Moved pool.old pool.new (S.refs stage.old ++ tasks_refs self.old.items)
            (S.refs stage.new ++ tasks_refs self.new.items) }
        ensures spent { spare pool.old ≤ spare pool.new
            + slots_needed (S.layer stage.old) (first_task self.old.items).direction
            (event_seen pool.old (first_task self.old.items).event) }
        ensures capacity { self.new.capacity ≡ self.old.capacity }
        ensures ready { S.ready pool.new stage.new }
        ensures lie { TasksLie pool.new self.new.items }
        ensures place { S.place stage.new ≡ S.place stage.old }
        ensures layer { S.layer stage.new ≡ S.layer stage.old }
        ensures taken { S.taken stage.new ≡ one_more (S.taken stage.old) }
    {
        let decided = stage.take(pool, &mut self.events);
        go_on(&mut self.places, &self.events, at);
        decided
    }

    /// Lets the places go, once no task is pending.
    pub fn end(self)
        requires { self.items ≡ [] }
    {
        let Tasks { places, events } = self;
        places.destroy_empty();
        events.close();
    }
}
