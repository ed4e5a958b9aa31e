//! Messages one after the other.

ghost use Rattle.std.specs.Prelude.{◌≡◌};

use crate::message::PoolMessage;
use crate::message_place::MessagePlace;
use crate::part::Part;
use msg_core::Header;
use slot_pool::Pool;
use std::alloc::{AllocError, Global};
use std::marker::Model;

/// Messages in order, the newest last, in as many places as are chosen once. Their places stay when they go, so that a
/// message is made and taken over where it lies, and a place is first touched when it is used. It can't be let go: it
/// is emptied, and then closed.
pub struct Messages {
    places: Vec<PoolMessage>,
    count: usize,
}

impl Model for Messages {
    ghost use Rattle.std.specs.Prelude.{◌≡◌, ◌≤◌, take, drop, length, None, vec_capacity};
    ghost use Rattle.std.specs.List.{AllByRecursion};
    ghost use Rattle.circular_buffer.specs.Buffer.{Buffer, buffer};
    ghost use Rattle.pool_message.specs.declared.message.PoolMessage.{PoolMessage};

    ghost Value = { Buffer PoolMessage };

    ghost view = { λ m. buffer (take m.count m.places.items) (vec_capacity m.places) };

    ghost invariant = { λ m. (m.count ≤ length m.places.items) ×
        AllByRecursion (λ x. x.body ≡ None) (drop m.count m.places.items) };
}

impl Messages {
    ghost use Rattle.std.specs.Prelude.{◌≡◌, ◌==◌, ◌<◌, ◌≤◌, [], ◌∷◌, ◌++◌, length, slice_get, slice_index_or};
    ghost use Rattle.std.specs.Prelude.{slice_set, option_copied, IfOk, Some, None};
    ghost use Rattle.circular_buffer.specs.Buffer.{buffer, last_item};
    ghost use Rattle.slot_pool.specs.References.{Covers};
    ghost use Rattle.msg_core.specs.Headers.{most_headers};
    ghost use Rattle.pool_message.specs.Seen.{refs, refs_if, bodiless};
    ghost use Rattle.pool_message.specs.Moves.{CanKeep, Kept, Returned};
    ghost use Rattle.msg_core.specs.Parts.{longest_body};
    ghost use Rattle.pool_message.specs.Piled.{pile_refs, without_last, with_header_last};
    ghost use Rattle.pool_message.specs.PutBody.{PutsBody};

    /// No message, with room for `places`.
    pub fn with_places(alloc: Global, places: usize) -> Result<Messages, AllocError>
        ensures { IfOk result (λ m. m ≡ buffer [] places) }
    {
        Ok(Messages {
            places: Vec::with_capacity(alloc, places)?,
            count: 0,
        })
    }

    /// How many there are.
    pub fn len(&self) -> usize
        ensures { result ≡ length self.now.items }
    {
        self.count
    }

    /// How many there may be.
    pub fn capacity(&self) -> usize
        ensures { result ≡ self.now.capacity }
    {
        self.places.capacity()
    }

    /// Whether there is no message.
    pub fn is_empty(&self) -> bool
        ensures { result ≡ (length self.now.items == 0) }
    {
        self.count == 0
    }

    /// The message number `k`, if there is one.
    pub fn get(&self, k: usize) -> Option<&PoolMessage>
        ensures { option_copied result ≡ slice_get self.now.items k }
    {
        if k < self.count {
            self.places.get(k)
        } else {
            None
        }
    }

    /// Puts a message without headers and bytes after the others.
    pub fn push_bare(&mut self)
        requires { length self.old.items < self.old.capacity }
        ensures { self.new ≡ buffer (self.old.items ++ bodiless [] ∷ []) self.old.capacity }
    {
        if self.count < self.places.len() {
            self.places[self.count].become_bare();
        } else {
            self.places.push_reserved(PoolMessage::new());
        }
        self.count += 1;
    }

    /// Puts a message after the others.
    pub fn push(&mut self, message: PoolMessage)
        requires { length self.old.items < self.old.capacity }
        ensures { self.new ≡ buffer (self.old.items ++ message ∷ []) self.old.capacity }
    {
        let mut message = message;
        self.push_bare();
        let last = self.count - 1;
        self.places[last].take_over(&mut message);
        message.close();
    }

    /// Puts a message once more after the others.
    pub fn push_kept(&mut self, message: &PoolMessage, pool: &mut Pool)
        requires room { length self.old.items < self.old.capacity }
        requires there { Covers pool.old (refs message.now) }
        requires keeps { CanKeep pool.old (refs message.now) }
        ensures pushed { self.new ≡ buffer (self.old.items ++ message.now ∷ []) self.old.capacity }
        ensures kept { Kept pool.old pool.new (refs message.now) }
    {
        self.push_bare();
        let last = self.count - 1;
        self.places[last].keep_from(message, pool);
    }

    /// Puts a message without headers and with a copy of these bytes after the others, in a slot that was unused.
    /// False where the pool is full, and then nothing has changed.
    pub fn push_put(&mut self, bytes: &[u8], pool: &mut Pool) -> bool
        requires room { length self.old.items < self.old.capacity }
        requires fits { length bytes.now ≤ longest_body }
        ensures { PutsBody pool.old self.old bytes.now pool.new self.new result }
    {
        let Some(slot) = pool.put(bytes) else {
            return false
        };
        let part = Part {
            slot,
            from: 0,
            len: bytes.len() as u32,
        };
        self.push_part(part);
        true
    }

    /// Puts a message without headers and with this body after the others.
    fn push_part(&mut self, part: Part)
        requires { length self.old.items < self.old.capacity }
        ensures { self.new ≡ buffer (self.old.items ++ record { headers = []; body = Some part } ∷ [])
            self.old.capacity }
    {
        self.push_bare();
        let last = self.count - 1;
        self.places[last].set_body(Some(part));
    }

    /// Puts a header before those of the last message, if there is one.
    pub fn push_header_on_last(&mut self, header: Header)
        requires { (m : PoolMessage) → last_item self.old.items ≡ Some m → length m.headers < most_headers }
        ensures { self.new ≡ buffer (with_header_last header self.old.items) self.old.capacity }
    {
        if self.count > 0 {
            let last = self.count - 1;
            self.places[last].push_header(header);
        }
    }

    /// Takes the last message out, if there is one.
    pub fn pop(&mut self) -> Option<PoolMessage>
        ensures last { result ≡ last_item self.old.items }
        ensures rest { self.new ≡ buffer (without_last self.old.items) self.old.capacity }
    {
        if self.count == 0 {
            return None;
        }
        self.count -= 1;
        Some(self.places[self.count].take_out())
    }

    /// Moves the last message to an empty place, if there is one.
    pub fn pop_to(&mut self, place: &mut MessagePlace)
        requires { place.old ≡ None }
        ensures last { place.new ≡ last_item self.old.items }
        ensures rest { self.new ≡ buffer (without_last self.old.items) self.old.capacity }
    {
        if self.count > 0 {
            self.count -= 1;
            place.fill(&mut self.places[self.count]);
        }
    }

    /// Puts a message in the place of message number `k`, whose reference goes back; where there is none, the new
    /// message's reference goes back.
    pub fn replace(&mut self, k: usize, message: PoolMessage, pool: &mut Pool)
        requires { Covers pool.old (refs (slice_index_or self.old.items k message)) }
        ensures set { self.new ≡ buffer (slice_set self.old.items k message) self.old.capacity }
        ensures returned { Returned pool.old pool.new (refs (slice_index_or self.old.items k message)) }
    {
        let mut message = message;
        self.replace_from(k, &mut message, pool);
        message.close();
    }

    /// Moves a message into the place of message number `k`, whose reference goes back; where there is none, the new
    /// message's reference goes back. `message` stays where it lies, without headers and bytes.
    pub fn replace_from(&mut self, k: usize, message: &mut PoolMessage, pool: &mut Pool)
        requires { Covers pool.old (refs (slice_index_or self.old.items k message.old)) }
        ensures set { self.new ≡ buffer (slice_set self.old.items k message.old) self.old.capacity }
        ensures left { message.new ≡ bodiless [] }
        ensures returned { Returned pool.old pool.new (refs (slice_index_or self.old.items k message.old)) }
    {
        if k < self.count {
            self.places[k].let_go(pool);
            self.places[k].take_over(message);
        } else {
            message.let_go(pool);
        }
    }

    /// Lets all go, and gives their references back.
    pub fn clear(&mut self, pool: &mut Pool)
        requires { Covers pool.old (pile_refs self.old.items) }
        ensures empty { self.new ≡ buffer [] self.old.capacity }
        ensures returned { Returned pool.old pool.new (pile_refs self.old.items) }
    {
        while self.len() > 0 {
            self.drop_last(pool);
        }
    }

    /// Lets the last one go, and gives its reference back.
    fn drop_last(&mut self, pool: &mut Pool)
        requires some { 0 < length self.old.items }
        requires there { Covers pool.old (refs_if (last_item self.old.items)) }
        ensures rest { self.new ≡ buffer (without_last self.old.items) self.old.capacity }
        ensures returned { Returned pool.old pool.new (refs_if (last_item self.old.items)) }
    {
        self.count -= 1;
        self.places[self.count].let_go(pool);
    }

    /// Ends a pile without messages.
    pub fn close(self)
        requires { self.items ≡ [] }
    {
        let Messages {
            mut places,
            count: _,
        } = self;
        while let Some(message) = places.pop() {
            message.close();
        }
        places.destroy_empty();
    }
}
