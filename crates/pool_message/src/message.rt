//! Messages whose bodies stand in a pool.

use crate::headers::none_headers;
use crate::join::join_bodies;
use crate::part::Part;
use msg_core::{Fields, Header, Headers};
use slot_pool::Pool;
use std::mem;

/// At most 24 headers, in place, before a body that is nothing or a part of a slot. It can't be let go: its reference
/// goes back to the pool.
pub struct PoolMessage {
    pub(crate) headers: Headers,
    pub(crate) body: Option<Part>,
}

impl PoolMessage {
    ghost use Rattle.std.specs.Prelude.{◌≡◌, ℕ, ◌+◌, ◌<◌, ◌≤◌, List, [], ◌∷◌, ◌++◌, map, length, slice_set};
    ghost use Rattle.std.specs.Prelude.{Some, None};
    ghost use Rattle.std.specs.List.{range_with_len};
    ghost use Rattle.slot_pool.specs.References.{Covers};
    ghost use Rattle.layer_mean.specs.Headers.{said_tag, said_fields};
    ghost use Rattle.msg_core.specs.Chain.{first_of, rest_of};
    ghost use Rattle.msg_core.specs.Headers.{most_headers};
    ghost use Rattle.msg_core.specs.Parts as parts;
    ghost use Rattle.layer_mean.specs.Visit.{none_header};
    ghost use Rattle.pool_message.specs.Seen.{refs, content_seen, Lies, bodiless};
    ghost use Rattle.pool_message.specs.Moves.{CanKeep, Kept, Returned, Derived, Counts, Joined};

    /// A message without headers and without bytes.
    pub fn new() -> PoolMessage
        ensures { result ≡ bodiless [] }
    {
        PoolMessage {
            headers: Headers::new(),
            body: None,
        }
    }

    /// A message without bytes, with the header `none` of each of `count` places from `first` on.
    pub fn blank(first: u8, count: u8) -> PoolMessage
        requires few { count ≤ most_headers }
        requires places { first + count ≤ 256 }
        ensures { result ≡ bodiless (map none_header (range_with_len first count)) }
    {
        PoolMessage {
            headers: none_headers(first, count),
            body: None,
        }
    }

    /// Its headers, the lowest layer's first.
    pub fn headers(&self) -> &Headers
        ensures { result.now ≡ self.now.headers }
    {
        &self.headers
    }

    /// How many bytes it has.
    pub fn len(&self) -> u32
        ensures { Counts self.now result }
    {
        match &self.body {
            Some(part) => part.len,
            None => 0,
        }
    }

    /// Its bytes.
    pub fn body<'p>(&'p self, pool: &'p Pool) -> &'p [u8]
        requires { Lies pool.now self.now }
        ensures { result.now ≡ (content_seen pool.now self.now).body }
    {
        match &self.body {
            Some(part) => part.bytes(pool),
            None => &[],
        }
    }

    /// A copy of this message. The two share their bytes, to which there is one more reference.
    pub fn keep(&self, pool: &mut Pool) -> PoolMessage
        requires there { Covers pool.old (refs self.now) }
        requires room { CanKeep pool.old (refs self.now) }
        ensures same { result ≡ self.now }
        ensures kept { Kept pool.old pool.new (refs self.now) }
    {
        let headers = self.headers.copy();
        match &self.body {
            Some(part) => PoolMessage {
                headers,
                body: Some(part.keep(pool)),
            },
            None => PoolMessage {
                headers,
                body: None,
            },
        }
    }

    /// Gives its reference back.
    pub fn give_back(self, pool: &mut Pool)
        requires { Covers pool.old (refs self) }
        ensures { Returned pool.old pool.new (refs self) }
    {
        let PoolMessage { headers: _, body } = self;
        if let Some(part) = body {
            part.give_back(pool);
        }
    }

    /// At most `count` of its bytes, from `from` on, and none of its headers.
    pub fn cut(self, from: u32, count: u32) -> PoolMessage
        ensures { Derived (λ m. parts.cut m from count) self result }
    {
        let PoolMessage { body, headers: _ } = self;
        let headers = Headers::new();
        match body {
            Some(part) => PoolMessage {
                headers,
                body: Some(part.cut(from, count)),
            },
            None => PoolMessage {
                headers,
                body: None,
            },
        }
    }

    /// Its bytes from `from` on, and its headers.
    pub fn tail(self, from: u32) -> PoolMessage
        ensures { Derived (λ m. parts.tail m from) self result }
    {
        let PoolMessage { headers, body } = self;
        match body {
            Some(part) => PoolMessage {
                headers,
                body: Some(part.tail(from)),
            },
            None => PoolMessage {
                headers,
                body: None,
            },
        }
    }

    /// Puts `header` before the others.
    pub fn push_header(&mut self, header: Header)
        requires { length self.old.headers < most_headers }
        ensures { self.new ≡ record self.old { headers = header ∷ self.old.headers } }
    {
        self.headers.push_front(header);
    }

    /// Its headers become these.
    pub fn copy_headers(&mut self, headers: &Headers)
        ensures { self.new ≡ record self.old { headers = headers.now } }
    {
        self.headers.copy_from(headers);
    }

    /// Puts `header` in the place of header number `k`.
    pub fn set_header(&mut self, k: u8, header: Header)
        requires { k < length self.old.headers }
        ensures { self.new ≡ record self.old { headers = slice_set self.old.headers k header } }
    {
        self.headers.set(k, header);
    }

    /// Takes the first header off.
    pub fn pop_header(&mut self, fields: &mut Fields) -> u8
        requires none { fields.old ≡ [] }
        ensures tag { result ≡ said_tag (first_of self.old.headers) }
        ensures fields { fields.new ≡ said_fields (first_of self.old.headers) }
        ensures rest { self.new ≡ record self.old { headers = rest_of self.old.headers } }
    {
        match self.headers.pop_front() {
            Some(header) => {
                *fields = header.fields;
                header.tag
            }
            None => 0,
        }
    }

    /// Becomes what another message is, which is then without headers and bytes. It has no bytes itself.
    pub fn take_over(&mut self, other: &mut PoolMessage)
        requires { self.old.body ≡ None }
        ensures taken { self.new ≡ other.old }
        ensures left { other.new ≡ bodiless [] }
    {
        self.headers.copy_from(&other.headers);
        other.headers.clear();
        self.set_body(other.body.take());
    }

    /// Becomes a message of these headers before this body. It has no bytes itself.
    pub(crate) fn make(&mut self, headers: &Headers, body: Part)
        requires { self.old.body ≡ None }
        ensures { self.new ≡ record { headers = headers.now; body = Some body } }
    {
        self.headers.copy_from(headers);
        self.set_body(Some(body));
    }

    /// Becomes the same message once more. It has no bytes itself; then the two share theirs, to which there is one
    /// more reference.
    pub fn keep_from(&mut self, other: &PoolMessage, pool: &mut Pool)
        requires bare { self.old.body ≡ None }
        requires there { Covers pool.old (refs other.now) }
        requires room { CanKeep pool.old (refs other.now) }
        ensures same { self.new ≡ other.now }
        ensures kept { Kept pool.old pool.new (refs other.now) }
    {
        self.headers.copy_from(&other.headers);
        if let Some(part) = &other.body {
            self.set_body(Some(part.keep(pool)));
        }
    }

    /// Takes the message out, and leaves none of its bytes.
    pub fn take_out(&mut self) -> PoolMessage
        ensures taken { result ≡ self.old }
        ensures left { self.new.body ≡ None }
    {
        PoolMessage {
            headers: self.headers.copy(),
            body: self.body.take(),
        }
    }

    /// Becomes a message without headers and bytes. It has no bytes.
    pub fn become_bare(&mut self)
        requires { self.old.body ≡ None }
        ensures { self.new ≡ bodiless [] }
    {
        self.headers.clear();
    }

    /// Gives its reference back, and is then without headers and bytes.
    pub fn let_go(&mut self, pool: &mut Pool)
        requires { Covers pool.old (refs self.old) }
        ensures bare { self.new ≡ bodiless [] }
        ensures returned { Returned pool.old pool.new (refs self.old) }
    {
        self.headers.clear();
        if let Some(part) = self.body.take() {
            part.give_back(pool);
        }
    }

    /// Ends a message without bytes.
    pub fn close(self)
        requires { self.body ≡ None }
    {
        let PoolMessage { headers: _, body } = self;
        match body {
            None => {}
            Some(_part) => unreachable!(),
        }
    }

    /// Its body becomes this one. It had none.
    pub(crate) fn set_body(&mut self, body: Option<Part>)
        requires { self.old.body ≡ None }
        ensures { self.new ≡ record self.old { body = body } }
    {
        match mem::replace(&mut self.body, body) {
            None => {}
            Some(_part) => unreachable!(),
        }
    }

    /// The bytes of `first` before those of `second`, after the headers of `second`; `second` alone where they
    /// would be more than a body has. A slot is taken only where both have bytes, and there is none where the pool is
    /// full then: both are given back.
    pub fn join(first: PoolMessage, second: PoolMessage, pool: &mut Pool) -> Option<PoolMessage>
        requires there { Covers pool.old (refs first ++ refs second) }
        requires front { Lies pool.old first }
        requires back { Lies pool.old second }
        ensures { Joined pool.old pool.new first second result }
    {
        let PoolMessage {
            headers: _,
            body: front,
        } = first;
        let PoolMessage {
            headers,
            body: back,
        } = second;
        let body = join_bodies(front, back, pool)?;
        Some(PoolMessage { headers, body })
    }
}
