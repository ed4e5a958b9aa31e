//! Stages of a run.

ghost use Rattle.std.specs.Prelude.{◌≡◌, ℕ, ◌+◌, ◌<◌, ◌≤◌, List, false, ◌++◌, length, if◌then◌else◌};
ghost use Rattle.slot_pool.specs.Held.{Held, spare};
ghost use Rattle.slot_pool.specs.References.{Moved, Covers};
ghost use Rattle.layer_mean.specs.State.{State};
ghost use Rattle.layer_mean.specs.Tree.{LayerTree};
ghost use Rattle.layer_mean.specs.Visit.{step};
ghost use Rattle.layer_desk.specs.Need.{most_above};
ghost use Rattle.layer_eval.specs.Did.{as_predicted};
ghost use Rattle.layer_stage.specs.Front.{first_way, first_seen, after_first};
ghost use Rattle.layer_stage.specs.Kept.{messages_kept};
ghost use Rattle.layer_stage.specs.Passes.{is_passed, passed_by};
ghost use Rattle.layer_stage.specs.Room.{slots_needed, places_needed, headers_met, most_counted, most_kept};
ghost use Rattle.layer_stage.specs.Room.{CountsWithin};
ghost use Rattle.layer_stage.specs.Taken.{one_more};
ghost use Rattle.pool_message.specs.Seen.{event_seen};
ghost use Rattle.pool_message.specs.Sent.{sent_refs, sent_seen, SentLie, CanPass};

use layer_eval::Predicted;
use layer_words::Dir;
use pool_message::{Events, PoolEvent};
use slot_pool::Pool;

/// A layer at its place, with its state. Bodies of messages stand in the pool beside it, and a visit takes no memory.
pub trait Stage {
    /// Its place in the stack, the lowest being 0, and its layer.
    ghost place: { Self → ℕ };

    ghost layer: { Self → LayerTree };

    /// The slots to which its state refers.
    ghost refs: { Self → List ℕ };

    /// Its state lies in the pool, and is in order.
    ghost ready: { List Held → Self → Type 0 };

    /// Its state, with the bodies that the pool holds.
    ghost state: { List Held → Self → State };

    /// How many events it took, held at 2^64 - 1.
    ghost taken: { Self → ℕ };

    /// The layer takes the first of the events: this event goes, and what the layer sends comes after the others. Until
    /// then the event keeps its place, so one place is needed beside those of what is sent. Its state, what it sends
    /// and whether it decided as predicted are those of a visit. It then took one event more.
    fn take(&mut self, pool: &mut Pool, events: &mut Events) -> Predicted
        requires some { 0 < length events.old.items }
        requires ready { ready pool.old self.old }
        requires lie { SentLie pool.old events.old.items }
        requires covers { Covers pool.old (refs self.old ++ sent_refs events.old.items) }
        requires counts { CountsWithin most_counted pool.old }
        requires headers { headers_met (first_way events.old.items) (first_seen pool.old events.old.items) ≤
            most_above }
        requires slots { slots_needed (layer self.old) (first_way events.old.items)
            (first_seen pool.old events.old.items) ≤ spare pool.old }
        requires places { length events.old.items
            + places_needed (layer self.old) (first_way events.old.items) (first_seen pool.old events.old.items) ≤
            events.old.capacity }
        ensures state { state pool.new self.new ≡
            (step (place self.old) (layer self.old) (state pool.old self.old) (first_way events.old.items)
            (first_seen pool.old events.old.items)).state }
        ensures sent { sent_seen pool.new events.new.items ≡ sent_seen pool.old (after_first events.old.items)
            ++ (step (place self.old) (layer self.old) (state pool.old self.old) (first_way events.old.items)
            (first_seen pool.old events.old.items)).sent }
        ensures predicted { result ≡ as_predicted
            (step (place self.old) (layer self.old) (state pool.old self.old) (first_way events.old.items)
            (first_seen pool.old events.old.items)).decided }

        // Its references, and those of the events, have moved in the pool, and no others.
        ensures moved { Moved pool.old pool.new (refs self.old ++ sent_refs events.old.items)
            (refs self.new ++ sent_refs events.new.items) }
        ensures spent { spare pool.old ≤ spare pool.new
            + slots_needed (layer self.old) (first_way events.old.items) (first_seen pool.old events.old.items) }
        ensures capacity { events.new.capacity ≡ events.old.capacity }
        ensures ready { ready pool.new self.new }
        ensures lie { SentLie pool.new events.new.items }
        ensures place { place self.new ≡ place self.old }
        ensures layer { layer self.new ≡ layer self.old }
        ensures taken { taken self.new ≡ one_more (taken self.old) };

    /// Lets an event pass where the layer has no handler for it and doesn't drop it, and answers whether it did. The
    /// event is then what a visit by it sends, and the layer took one event more; all else is as it was.
    fn pass(&mut self, direction: Dir, event: &mut PoolEvent) -> bool
        requires room { CanPass direction event.old.message }
        ensures passes { (p : List Held) → result ≡ is_passed (layer self.old) direction (event_seen p event.old) }
        ensures event { event.new ≡ (if result then passed_by (place self.old) direction event.old else event.old) }
        ensures kept { result ≡ false → self.new ≡ self.old }
        ensures refs { refs self.new ≡ refs self.old }
        ensures ready { (p : List Held) → ready p self.old → ready p self.new }
        ensures state { (p : List Held) → state p self.new ≡ state p self.old }
        ensures place { place self.new ≡ place self.old }
        ensures layer { layer self.new ≡ layer self.old }
        ensures taken { taken self.new ≡ (if result then one_more (taken self.old) else taken self.old) };

    /// Where other references move, it stays as it is.
    ghost frame: { (p q : List Held) (a b : List ℕ) (s : Self) → Moved p q a b → Covers p (a ++ refs s) → ready p s →
        (ready q s × (state q s ≡ state p s)) };

    /// It has at most `most_kept` references.
    ghost few: { (p : List Held) (s : Self) → ready p s → length (refs s) ≤ most_kept };

    /// It has no more references than there are rows with messages in its state.
    ghost kept: { (p : List Held) (s : Self) → ready p s → length (refs s) ≤ messages_kept (state p s) };
}
