//! Where tasks stand.

ghost use Rattle.std.specs.Prelude.{◌≡◌, ◌<◌, ◌≤◌, [], ◌∷◌, ◌++◌, drop, length};
ghost use Rattle.circular_buffer.specs.Buffer.{buffer};
ghost use Rattle.layer_mean.specs.Queue as spec;
ghost use Rattle.pool_message.specs.Sent.{first_sent};
ghost use Rattle.stack_queue.specs.Pending.{places_on};

use layer_words::Dir;
use pool_message::{Events, ShortQueue};

/// A place becomes the last.
pub(crate) fn put_place(places: &mut ShortQueue<u16>, at: u16)
    requires { length places.old.items < places.old.capacity }
    ensures { places.new ≡ buffer (places.old.items ++ at ∷ []) places.old.capacity }
{
    match places.try_push_back(at) {
        Ok(()) => {}
        Err(_at) => unreachable!(),
    }
}

/// The first place goes.
pub(crate) fn end_first(places: &mut ShortQueue<u16>)
    requires { 0 < length places.old.items }
    ensures { places.new ≡ buffer (drop 1 places.old.items) places.old.capacity }
{
    let Some(_at) = places.pop_front() else {
        unreachable!();
    };
}

/// The only place becomes another one.
pub(crate) fn stand_alone(places: &mut ShortQueue<u16>, at: u16)
    requires { length places.old.items ≡ 1 }
    ensures { places.new ≡ buffer (at ∷ []) places.old.capacity }
{
    places.set_first(at);
}

/// The first place goes. The events that have no place were sent from it: each goes on to its neighbour.
pub(crate) fn go_on(places: &mut ShortQueue<u16>, events: &Events, at: u16)
    requires place { (1 ≤ at) × (at ≤ 255) }
    requires some { 0 < length places.old.items }
    requires room { events.now.capacity ≤ places.old.capacity }
    ensures { places.new ≡
        buffer (drop 1 places.old.items ++ places_on at (drop (length (drop 1 places.old.items)) events.now.items))
        places.old.capacity }
{
    if places.len() == 1 && events.len() == 1 {
        stand_alone(places, beyond(first_way(events), at));
        return;
    }
    end_first(places);
    put_places(places, events, at);
}

/// The events after those that have places were sent from this one: each goes on to its neighbour.
fn put_places(places: &mut ShortQueue<u16>, events: &Events, at: u16)
    requires place { (1 ≤ at) × (at ≤ 255) }
    requires room { events.now.capacity ≤ places.old.capacity }
    ensures { places.new ≡ buffer (places.old.items ++ places_on at (drop (length places.old.items) events.now.items))
        places.old.capacity }
{
    for k in places.len()..events.len() {
        put_place(places, beyond(events.direction(k), at));
    }
}

/// The direction of the first event.
pub(crate) fn first_way(events: &Events) -> Dir
    requires { 0 < length events.now.items }
    ensures { result ≡ (first_sent events.now.items).0 }
{
    events.front().0
}

/// The neighbour in a direction.
pub(crate) fn beyond(direction: Dir, at: u16) -> u16
    requires { (1 ≤ at) × (at ≤ 255) }
    ensures { result ≡ spec.beyond direction at }
{
    match direction {
        Dir::Up => at + 1,
        Dir::Down => at - 1,
    }
}
