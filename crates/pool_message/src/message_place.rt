//! Places for messages.

ghost use Rattle.std.specs.Prelude.{◌≡◌};

use crate::message::PoolMessage;
use crate::part::Part;
use msg_core::{Fields, Header, Headers};
use slot_pool::Pool;
use std::marker::Model;

/// A place in which there is a message or none. A message has room for 24 headers, of which most have few: so it isn't
/// moved by value from place to place, but taken over with the headers that there are.
pub struct MessagePlace {
    message: PoolMessage,
    is_full: bool,
}

impl Model for MessagePlace {
    ghost use Rattle.std.specs.Prelude.{◌≡◌, false, if◌then◌else◌, Option, Some, None};
    ghost use Rattle.pool_message.specs.declared.message.PoolMessage.{PoolMessage};

    ghost Value = { Option PoolMessage };

    ghost view = { λ p. if p.is_full then Some p.message else None };

    ghost invariant = { λ p. p.is_full ≡ false → p.message.body ≡ None };
}

impl MessagePlace {
    ghost use Rattle.std.specs.Prelude.{◌≡◌, ◌<◌, length, Some, None, option_copied, option_map, [], IfSome};
    ghost use Rattle.slot_pool.specs.References.{Covers};
    ghost use Rattle.layer_mean.specs.Headers.{said_tag, said_fields};
    ghost use Rattle.msg_core.specs.Headers.{most_headers};
    ghost use Rattle.pool_message.specs.Seen.{refs, refs_if, bodiless};
    ghost use Rattle.pool_message.specs.Sent.{first_header, with_header, without_first};
    ghost use Rattle.pool_message.specs.Moves.{CanKeep, Kept, Returned};

    /// A place without a message.
    pub fn new() -> MessagePlace
        ensures { result ≡ None }
    {
        MessagePlace {
            message: PoolMessage::new(),
            is_full: false,
        }
    }

    /// The message, if there is one.
    pub fn get(&self) -> Option<&PoolMessage>
        ensures { option_copied result ≡ self.now }
    {
        if self.is_full {
            Some(&self.message)
        } else {
            None
        }
    }

    /// Takes what lies in another place, which is then empty. This one was empty.
    pub fn take_over(&mut self, other: &mut MessagePlace)
        requires { self.old ≡ None }
        ensures taken { self.new ≡ other.old }
        ensures left { other.new ≡ None }
    {
        if other.is_full {
            self.message.take_over(&mut other.message);
            self.is_full = true;
            other.is_full = false;
        }
    }

    /// Becomes full of a message, which is then without headers and bytes. The place was empty.
    pub fn fill(&mut self, message: &mut PoolMessage)
        requires { self.old ≡ None }
        ensures full { self.new ≡ Some message.old }
        ensures left { message.new ≡ bodiless [] }
    {
        self.message.take_over(message);
        self.is_full = true;
    }

    /// Becomes full of a message once more. The place was empty; the two share their bytes, to which there is one more
    /// reference.
    pub fn keep_from(&mut self, message: &PoolMessage, pool: &mut Pool)
        requires empty { self.old ≡ None }
        requires there { Covers pool.old (refs message.now) }
        requires keeps { CanKeep pool.old (refs message.now) }
        ensures full { self.new ≡ Some message.now }
        ensures kept { Kept pool.old pool.new (refs message.now) }
    {
        self.message.keep_from(message, pool);
        self.is_full = true;
    }

    /// Becomes full of a message of these headers before this body. The place was empty.
    pub(crate) fn make(&mut self, headers: &Headers, body: Part)
        requires { self.old ≡ None }
        ensures { self.new ≡ Some (record { headers = headers.now; body = Some body }) }
    {
        self.message.make(headers, body);
        self.is_full = true;
    }

    /// Puts a header before those of the message, if there is one.
    pub fn push_header(&mut self, header: Header)
        requires { IfSome self.old (λ m. length m.headers < most_headers) }
        ensures { self.new ≡ option_map (with_header header) self.old }
    {
        if self.is_full {
            self.message.push_header(header);
        }
    }

    /// Takes the first header off the message, if there is one: says its tag, 0 where there is none, and its fields.
    pub fn pop_header(&mut self, fields: &mut Fields) -> u8
        requires none { fields.old ≡ [] }
        ensures tag { result ≡ said_tag (first_header self.old) }
        ensures fields { fields.new ≡ said_fields (first_header self.old) }
        ensures rest { self.new ≡ option_map without_first self.old }
    {
        if self.is_full {
            self.message.pop_header(fields)
        } else {
            0
        }
    }

    /// Gives the reference of the message back, if there is one, and is empty then.
    pub fn let_go(&mut self, pool: &mut Pool)
        requires { Covers pool.old (refs_if self.old) }
        ensures empty { self.new ≡ None }
        ensures returned { Returned pool.old pool.new (refs_if self.old) }
    {
        if self.is_full {
            self.message.let_go(pool);
            self.is_full = false;
        }
    }

    /// Ends a place without a message.
    pub fn close(self)
        requires { self ≡ None }
    {
        let MessagePlace {
            message,
            is_full: _,
        } = self;
        message.close();
    }
}
