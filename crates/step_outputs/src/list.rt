//! Outputs that are kept, one after the other.

ghost use Rattle.std.specs.Prelude.{◌≡◌, ◌≤◌, [], length, take};
ghost use Rattle.stack_mean.specs.Plans.{plans_limit};
ghost use Rattle.step_outputs.specs.Kept.{numbered_outputs};

use crate::kept::{Kept, Span, What, take_number};
use msg_core::Headers;
use std::alloc::{AllocError, Global};
use std::marker::Model;

/// Outputs in order, in as many places as are chosen once. Their places stay when they go, so that headers are copied
/// to where they lie, and a place is first touched when it is used.
#[derive(Drop)]
pub struct KeptList {
    places: Vec<Kept>,
    count: usize,
}

impl Model for KeptList {
    ghost use Rattle.std.specs.Prelude.{◌≤◌, take, length, vec_capacity};
    ghost use Rattle.circular_buffer.specs.Buffer.{Buffer, buffer};
    ghost use Rattle.step_outputs.specs.declared.kept.Kept.{Kept};

    ghost Value = { Buffer Kept };

    ghost view = { λ l. buffer (take l.count l.places.items) (vec_capacity l.places) };

    ghost invariant = { λ l. l.count ≤ length l.places.items };
}

impl KeptList {
    ghost use Rattle.std.specs.Prelude.{◌≡◌, ◌<◌, ◌≤◌, [], ◌∷◌, ◌++◌, length, IfOk};
    ghost use Rattle.circular_buffer.specs.Buffer.{buffer};
    ghost use Rattle.stack_mean.specs.Plans.{plans_limit};
    ghost use Rattle.step_outputs.specs.Kept.{numbered_outputs};

    /// No output, with room for `places`.
    pub fn with_places(alloc: Global, places: usize) -> Result<KeptList, AllocError>
        ensures { IfOk result (λ l. l ≡ buffer [] places) }
    {
        Ok(KeptList {
            places: Vec::with_capacity(alloc, places)?,
            count: 0,
        })
    }

    /// How many there are.
    pub fn len(&self) -> usize
        ensures { result ≡ length self.now.items }
    {
        self.count
    }

    /// The outputs, in order.
    pub fn slice(&self) -> &[Kept]
        ensures { result.now ≡ self.now.items }
    {
        &self.places[..self.count]
    }

    /// Lets all go.
    pub fn clear(&mut self)
        ensures { self.new ≡ buffer [] self.old.capacity }
    {
        self.count = 0;
    }

    /// Puts one with these headers after the others.
    pub fn push(&mut self, what: What, headers: &Headers, body: Span)
        requires { length self.old.items < self.old.capacity }
        ensures { self.new ≡ buffer (self.old.items ++ record { what = what; headers = headers.now; body = body } ∷ [])
            self.old.capacity }
    {
        self.push_bare(what, body);
        if headers.len() == 0 {
            return;
        }
        let last = self.count - 1;
        self.places[last].headers.copy_from(headers);
    }

    /// Puts one without headers after the others.
    pub fn push_bare(&mut self, what: What, body: Span)
        requires { length self.old.items < self.old.capacity }
        ensures { self.new ≡ buffer (self.old.items ++ record { what = what; headers = []; body = body } ∷ [])
            self.old.capacity }
    {
        if self.count < self.places.len() {
            become_bare(&mut self.places[self.count], what, body);
        } else {
            let headers = Headers::new();
            self.places.push_reserved(Kept {
                what,
                headers,
                body,
            });
        }
        self.count += 1;
    }

    /// Each takes its number, from `first` on, where there are `count` plans.
    pub fn number(&mut self, first: u32, count: u32)
        requires { count ≤ plans_limit }
        ensures { self.new ≡ buffer (numbered_outputs count first self.old.items) self.old.capacity }
    {
        number_front(self.places.as_mut_slice(), self.count, first, count);
    }
}

/// Each of the first `used` outputs takes its number, from `first` on, where there are `count` plans.
fn number_front(list: &mut [Kept], used: usize, first: u32, count: u32)
    requires few { count ≤ plans_limit }
    requires within { used ≤ length list.old }
    ensures { take used list.new ≡ numbered_outputs count first (take used list.old) }
{
    number_all(&mut list[..used], first, count);
}

/// Each of some outputs takes its number, from `first` on, where there are `count` plans.
fn number_all(list: &mut [Kept], first: u32, count: u32)
    requires { count ≤ plans_limit }
    ensures { list.new ≡ numbered_outputs count first list.old }
{
    let mut next = first;
    for kept in list.iter_mut() {
        next = take_number(kept, next, count);
    }
}

/// An output becomes another without headers.
fn become_bare(kept: &mut Kept, what: What, body: Span)
    ensures { kept.new ≡ record { what = what; headers = []; body = body } }
{
    kept.what = what;
    kept.headers.clear();
    kept.body = body;
}
