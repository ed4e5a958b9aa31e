//! Headers, and the messages that carry them.

ghost use Rattle.std.specs.Prelude.{◌≡◌, ◌<◌, IfOk, OnErr, OnOk, length, slice_get, slice_index_or};

use crate::fields::Fields;
use std::alloc::{AllocError, AllocFailed, Global};
use std::marker::Model;
use std::rc::RcSlice;
use thiserror::Error;

/// The most bytes of a body.
pub const LONGEST_BODY: u32 = 8192;

/// Memory ran out.
#[derive(Debug, Drop, Error)]
#[error("no memory")]
pub struct Memory;

impl From<AllocError> for Memory {
    fn from(_: AllocError) -> Memory {
        Memory
    }
}

impl<T: Drop> From<AllocFailed<T>> for Memory {
    fn from(_: AllocFailed<T>) -> Memory {
        Memory
    }
}

/// What one layer says to the same layer of the receiver: the layer's place in the stack, lowest
/// first, the tag of one of its headers (0 for the header `none`), and the header's numbers.
#[derive(Clone, Copy)]
pub struct Header {
    pub layer: u8,
    pub tag: u8,
    pub fields: Fields,
}

impl Header {
    /// A copy of this header.
    pub fn copy(&self) -> Header
        ensures { result ≡ self.now }
    {
        Header {
            layer: self.layer,
            tag: self.tag,
            fields: self.fields.copy(),
        }
    }
}

/// A chain of headers before a body. The first header stands at the end of the vector, where a push
/// and a pop cost the same however many headers there are, and copies of a message share its body.
#[derive(Drop)]
pub struct Message {
    headers: Vec<Header>,
    body: RcSlice<u8>,
}

impl Model for Message {
    ghost use Rattle.std.specs.Prelude.{reverse};
    ghost use Rattle.std.specs.Rc.{rc_slice_items};
    ghost use Rattle.msg_core.specs.Chain.{Content};

    ghost Value = { Content };

    ghost view = { λ m. record { headers = reverse m.headers.items; body = rc_slice_items m.body } };
}

impl Message {
    ghost use Rattle.msg_core.specs.Chain.{plain, pushed, popped, first_of};

    /// A message of these bytes, without headers.
    pub fn of(alloc: Global, body: &[u8]) -> Result<Message, Memory>
        ensures { IfOk result (λ m. m ≡ plain body.now) }
    {
        let body = RcSlice::from_slice(alloc, body)?;
        Ok(Message {
            headers: Vec::new(alloc),
            body,
        })
    }

    /// The header number `k`, the lowest layer's being 0.
    pub fn header(&self, k: u32) -> Option<Header>
        ensures { result ≡ slice_get self.now.headers k }
    {
        let count = self.headers.len();
        if (k as usize) < count {
            Some(self.headers[count - 1 - k as usize].copy())
        } else {
            None
        }
    }

    /// The header number `k`, of those that there are.
    pub fn header_at(&self, k: usize) -> &Header
        requires { k < length self.now.headers }
        ensures { result.now ≡ slice_index_or self.now.headers k result.now }
    {
        let count = self.headers.len();
        &self.headers[count - 1 - k]
    }

    /// The bytes after the headers.
    pub fn body(&self) -> &[u8]
        ensures { result.now ≡ self.now.body }
    {
        self.body.as_slice()
    }

    /// Puts `header` before the others.
    pub fn push_header(&mut self, header: Header) -> Result<(), Memory>
        ensures pushed { OnOk result (self.new ≡ pushed header self.old) }
        ensures same { OnErr result (self.new ≡ self.old) }
    {
        self.headers.push(header)?;
        Ok(())
    }

    /// Takes the first header off.
    pub fn pop_header(&mut self) -> Option<Header>
        ensures first { result ≡ first_of self.old.headers }
        ensures rest { self.new ≡ popped self.old }
    {
        self.headers.pop()
    }

    /// A copy of this message; the two share their body.
    pub fn copy(&self, alloc: Global) -> Result<Message, Memory>
        ensures { IfOk result (λ m. m ≡ self.now) }
    {
        let mut headers = Vec::with_capacity(alloc, self.headers.len())?;
        for header in self.headers.iter() {
            headers.push(header.copy())?;
        }
        Ok(Message {
            headers,
            body: self.body.clone()?,
        })
    }
}
