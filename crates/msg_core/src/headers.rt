//! The headers of a message, in place.

ghost use Rattle.std.specs.Prelude.{◌≡◌, ◌<◌, ◌≤◌, [], ◌∷◌, length, slice_get, slice_set, take};
ghost use Rattle.msg_core.specs.Chain.{first_of, rest_of};
ghost use Rattle.msg_core.specs.Headers.{most_headers};

use crate::fields::Fields;
use crate::message::Header;
use std::array;
use std::marker::Model;

/// The most headers of a message: one for each place of a stack.
pub const MOST_HEADERS: usize = 24;

/// At most 24 headers, which take no memory; contracts see their list, the lowest layer's first. They fill the array
/// from its back, so that a push and a pop at the front touch one header.
#[derive(Drop)]
pub struct Headers {
    places: [Header; MOST_HEADERS],
    first: u8,
}

impl Model for Headers {
    ghost use Rattle.std.specs.Prelude.{◌≡◌, List, ◌≤◌, length, drop};
    ghost use Rattle.msg_core.specs.Headers.{most_headers};
    ghost use Rattle.msg_core.specs.declared.message.Header.{Header};

    ghost Value = { List Header };

    ghost view = { λ h. drop h.first h.places };

    ghost invariant = { λ h. (h.first ≤ most_headers) × (length h.places ≡ most_headers) };
}

impl Headers {
    /// No header.
    pub fn new() -> Headers
        ensures { result ≡ [] }
    {
        Headers {
            places: array::from_fn(|_place| Header {
                layer: 0,
                tag: 0,
                fields: Fields::new(),
            }),
            first: MOST_HEADERS as u8,
        }
    }

    /// How many there are.
    pub fn len(&self) -> u32
        ensures count { result ≡ length self.now }
        ensures few { result ≤ most_headers }
    {
        MOST_HEADERS as u32 - u32::from(self.first)
    }

    /// All of them, where they lie.
    pub fn slice(&self) -> &[Header]
        ensures { result.now ≡ self.now }
    {
        let places = &self.places[..];
        &places[usize::from(self.first)..]
    }

    /// The header number `k`, the lowest layer's being 0.
    pub fn at(&self, k: u32) -> Option<Header>
        ensures { result ≡ slice_get self.now k }
    {
        if k < self.len() {
            Some(self.places[usize::from(self.first) + k as usize].copy())
        } else {
            None
        }
    }

    /// A copy of these headers.
    pub fn copy(&self) -> Headers
        ensures { result ≡ self.now }
    {
        let mut copy = Headers::new();
        copy.copy_from(self);
        copy
    }

    /// Becomes what other headers are; places without a header aren't touched.
    pub fn copy_from(&mut self, other: &Headers)
        ensures { self.new ≡ other.now }
    {
        let first = usize::from(other.first);
        let places = &mut self.places[..];
        let places = &mut places[first..];
        let theirs = &other.places[..];
        places.copy_from_slice(&theirs[first..]);
        self.first = other.first;
    }

    /// Lets all go.
    pub fn clear(&mut self)
        ensures { self.new ≡ [] }
    {
        self.first = MOST_HEADERS as u8;
    }

    /// Becomes `count` headers, whatever they are: each is to be set.
    pub fn stretch(&mut self, count: u8)
        requires { count ≤ most_headers }
        ensures { length self.new ≡ count }
    {
        self.first = MOST_HEADERS as u8 - count;
    }

    /// Puts `header` in the place of number `k`.
    pub fn set(&mut self, k: u8, header: Header)
        requires { k < length self.old }
        ensures { self.new ≡ slice_set self.old k header }
    {
        self.places[usize::from(self.first) + usize::from(k)] = header;
    }

    /// Keeps the first `count`.
    pub fn cut(&mut self, count: u8)
        requires { count ≤ length self.old }
        ensures { self.new ≡ take count self.old }
    {
        if u32::from(count) == self.len() {
            return;
        }
        let mut kept = Headers::new();
        let all = self.slice();
        for k in (0..usize::from(count)).rev() {
            kept.push_front(all[k].copy());
        }
        self.copy_from(&kept);
    }

    /// Puts `header` before the others.
    pub fn push_front(&mut self, header: Header)
        requires { length self.old < most_headers }
        ensures { self.new ≡ header ∷ self.old }
    {
        self.first -= 1;
        self.places[usize::from(self.first)] = header;
    }

    /// Takes the first one off.
    pub fn pop_front(&mut self) -> Option<Header>
        ensures first { result ≡ first_of self.old }
        ensures rest { self.new ≡ rest_of self.old }
    {
        if usize::from(self.first) < MOST_HEADERS {
            let first = self.places[usize::from(self.first)].copy();
            self.first += 1;
            Some(first)
        } else {
            None
        }
    }
}
