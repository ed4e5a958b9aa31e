//! A visit of a layer at its desk.

ghost use Rattle.std.specs.Prelude.{◌≡◌, ◌+◌, ◌-◌, ◌<◌, ◌≤◌, [], ◌++◌, None, length};
ghost use Rattle.circular_buffer.specs.Buffer.{buffer};
ghost use Rattle.slot_pool.specs.Held.{spare};
ghost use Rattle.slot_pool.specs.References.{Moved, Covers};
ghost use Rattle.layer_mean.specs.Visit.{step};
ghost use Rattle.typed_layer.specs.View.{layer_tree};
ghost use Rattle.layer_desk.specs.Need.{most_above};
ghost use Rattle.layer_eval.specs.Did.{as_predicted};
ghost use Rattle.layer_stage.specs.Front.{first_way, first_seen, after_first};
ghost use Rattle.layer_stage.specs.Room.{slots_needed, places_needed, headers_met, most_counted, CountsWithin};
ghost use Rattle.cell_store.specs.Kept.{state_of};
ghost use Rattle.pool_message.specs.Seen.{row_seen, event_refs, EventLies};
ghost use Rattle.pool_message.specs.Sent.{sent_refs, sent_seen, SentLie, first_sent, most_sent, envelope_of};
ghost use Rattle.live_layer.specs.Rest.{IsAtRest, begins, ends};
ghost use Rattle.live_layer.specs.Stock.{kept_refs};

use crate::desk::FileDesk;
use layer_eval::{Predicted, Visit, take_event};
use layer_mean::Envelope;
use layer_words::Dir;
use pool_message::Events;
use slot_pool::Pool;
use typed_layer::TypedLayer;

/// Lays the first event on the desk, with its message, and says its direction and its envelope. What the desk sends
/// comes after the others.
fn begin(desk: &mut FileDesk, events: &mut Events) -> (Dir, Envelope)
    requires some { 0 < length events.old.items }
    requires idle { (desk.old.tray.arrived ≡ None) × (desk.old.tray.messages.items ≡ []) }
    ensures desk { desk.new ≡
        begins (first_sent events.old.items).1.message
        (buffer (after_first events.old.items) (events.old.capacity - 1)) desk.old }
    ensures events { events.new ≡ buffer desk.old.tray.sent.items (desk.old.tray.sent.capacity + 1) }
    ensures within { length (after_first events.old.items) ≤ events.old.capacity - 1 }
    ensures few { events.old.capacity - 1 ≤ most_sent }
    ensures first { result ≡ (first_way events.old.items, envelope_of (first_sent events.old.items).1) }
{
    desk.first = events.len() - 1;
    desk.places = events.places() - 1;
    desk.tray.begin(events)
}

/// Takes what was sent off the desk.
fn end(desk: &mut FileDesk, events: &mut Events)
    requires places { 1 ≤ events.old.capacity }
    requires idle { (desk.old.tray.arrived ≡ None) × (desk.old.tray.messages.items ≡ []) }
    ensures desk { desk.new ≡ ends (buffer events.old.items (events.old.capacity - 1)) desk.old }
    ensures events { events.new ≡ buffer desk.old.tray.sent.items (desk.old.tray.sent.capacity + 1) }
{
    desk.first = 0;
    desk.places = 0;
    desk.tray.end(events);
}

/// The layer at a place takes the first of the events at its desk. The event goes, and what the layer sends comes after
/// the others.
pub(crate) fn visit(
    place: u8,
    layer: &TypedLayer,
    desk: &mut FileDesk,
    pool: &mut Pool,
    events: &mut Events,
) -> Predicted
    requires some { 0 < length events.old.items }
    requires rest { IsAtRest (layer_tree layer.now) pool.old desk.old }
    requires event { EventLies pool.old (first_sent events.old.items).1 }
    requires out { SentLie pool.old (after_first events.old.items) }
    requires covered { Covers pool.old (kept_refs desk.old.cells
        ++ (event_refs (first_sent events.old.items).1 ++ sent_refs (after_first events.old.items))) }
    requires counts { CountsWithin most_counted pool.old }
    requires headers { headers_met (first_way events.old.items) (first_seen pool.old events.old.items) ≤ most_above }
    requires slots { slots_needed (layer_tree layer.now) (first_way events.old.items)
        (first_seen pool.old events.old.items) ≤ spare pool.old }
    requires places { length events.old.items
        + places_needed (layer_tree layer.now) (first_way events.old.items) (first_seen pool.old events.old.items) ≤
        events.old.capacity }
    ensures state { state_of (row_seen pool.new) desk.new.cells ≡
        (step place (layer_tree layer.now) (state_of (row_seen pool.old) desk.old.cells) (first_way events.old.items)
        (first_seen pool.old events.old.items)).state }
    ensures sent { sent_seen pool.new events.new.items ≡ sent_seen pool.old (after_first events.old.items)
        ++ (step place (layer_tree layer.now) (state_of (row_seen pool.old) desk.old.cells) (first_way events.old.items)
        (first_seen pool.old events.old.items)).sent }
    ensures predicted { result ≡ as_predicted
        (step place (layer_tree layer.now) (state_of (row_seen pool.old) desk.old.cells) (first_way events.old.items)
        (first_seen pool.old events.old.items)).decided }
    ensures moved { Moved pool.old pool.new
        (kept_refs desk.old.cells ++
        (event_refs (first_sent events.old.items).1 ++ sent_refs (after_first events.old.items)))
        (kept_refs desk.new.cells ++ sent_refs events.new.items) }
    ensures spent { spare pool.old ≤ spare pool.new
        + slots_needed (layer_tree layer.now) (first_way events.old.items) (first_seen pool.old events.old.items) }
    ensures capacity { events.new.capacity ≡ events.old.capacity }
    ensures rest { IsAtRest (layer_tree layer.now) pool.new desk.new }
    ensures out { SentLie pool.new events.new.items }
{
    let (direction, envelope) = begin(desk, events);
    let visit = Visit {
        place,
        direction,
        envelope,
    };
    let predicted = take_event(&visit, layer, desk, pool);
    end(desk, events);
    predicted
}
