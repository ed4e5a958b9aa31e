//! The bytes of a datagram, taken from the front.

ghost use Rattle.std.specs.Prelude.{◌≡◌, ◌+◌, ◌<◌, ◌≤◌, [], IfSome, drop, length, option_map, slice_index_or};
ghost use Rattle.stack_judge.specs.Answer.{stack_tree};
ghost use Rattle.layer_mean.specs.Tree.{no_layer};
ghost use Rattle.msg_core.specs.Headers.{most_fields};
ghost use Rattle.packet_mean.specs.Reading as reading;
ghost use Rattle.packet_full.specs.Chain.{header_read, none_at, TakesNone};
ghost use Rattle.packet_full.specs.Taking.{Takes, left, preamble_tree};

use crate::form::form_at;
use crate::front::{PREAMBLE_BYTES, Preamble, dest_of};
use msg_core::{Fields, Header, Headers};
use stack_judge::Stack;

/// The most numbers that a header carries.
const MOST_FIELDS: u8 = msg_core::MOST_FIELDS as u8;

/// The bytes that are left of a datagram.
#[derive(Clone, Copy)]
pub struct Cursor<'a> {
    bytes: &'a [u8],
}

impl<'a> Cursor<'a> {
    /// Before these bytes, of which all are left.
    pub fn new(bytes: &'a [u8]) -> Cursor<'a>
        ensures { left result ≡ bytes.now }
    {
        Cursor { bytes }
    }

    /// How many bytes are left.
    pub fn len(&self) -> usize
        ensures { result ≡ length (left self.now) }
    {
        self.bytes.len()
    }

    /// One byte, if one is left.
    pub fn byte(&mut self) -> Option<u8>
        ensures { Takes (reading.byte (left self.old)) result (left self.new) }
    {
        let (first, following) = self.bytes.split_first()?;
        self.bytes = following;
        Some(*first)
    }

    /// A number of four bytes, the highest first.
    pub fn number(&mut self) -> Option<u32>
        ensures { Takes (reading.number (left self.old)) result (left self.new) }
    {
        let (first, following) = self.bytes.split_first_chunk::<4>()?;
        self.bytes = following;
        Some(u32::from_be_bytes(*first))
    }

    /// Takes `count` numbers.
    pub fn numbers(&mut self, count: u8) -> Option<Fields>
        requires { count ≤ most_fields }
        ensures { Takes (reading.numbers count (left self.old)) result (left self.new) }
    {
        let mut cursor = *self;
        let mut fields = Fields::new();
        for place in 0..MOST_FIELDS {
            if place == count {
                *self = cursor;
                return Some(fields);
            }
            fields.push(cursor.number()?);
        }
        *self = cursor;
        Some(fields)
    }

    /// The preamble of a datagram. Whether there are enough bytes is asked once, before the first is taken, so that the
    /// compiler reads them all at once. The view's numbers are set in place: a view that is made apart is moved as one
    /// number of 64 bits.
    pub fn preamble(&mut self) -> Option<Preamble>
        ensures { Takes (reading.preamble (left self.old)) (option_map preamble_tree result) (left self.new) }
    {
        if self.bytes.len() < PREAMBLE_BYTES {
            return None;
        }
        let mut cursor = *self;
        let mut front = Preamble::new();
        front.form = cursor.byte()?;
        front.group = cursor.number()?;
        front.stamp = cursor.number()?;
        front.view.ltime = cursor.number()?;
        front.view.mask = cursor.number()?;
        front.sender = cursor.byte()?;
        front.dest = dest_of(cursor.byte()?);
        *self = cursor;
        Some(front)
    }

    /// The header of a place's layer, and whether it closes the chain.
    fn header(&mut self, stack: &Stack, place: u8) -> Option<(Header, bool)>
        requires { place < length (stack_tree stack.now) }
        ensures { Takes (header_read (slice_index_or (stack_tree stack.now) place no_layer) place (left self.old))
            result (left self.new) }
    {
        let tag = self.byte()?;
        let form = form_at(stack, place, tag)?;
        let fields = self.numbers(form.fields)?;
        Some((
            Header {
                layer: place,
                tag,
                fields,
            },
            form.ends,
        ))
    }

    /// Takes the header `none` off, if it is the next.
    fn takes_none(&mut self) -> bool
        ensures { TakesNone (left self.old) result (left self.new) }
    {
        match self.bytes.split_first() {
            Some((tag, following)) => {
                if *tag != 0 {
                    return false;
                }
                self.bytes = following;
                true
            }
            None => false,
        }
    }

    /// The headers of the layers from a place on, through the first that closes the chain. Most headers are `none`.
    pub fn chain(&mut self, stack: &Stack, place: u8, headers: &mut Headers) -> Option<()>
        requires place { place ≤ length (stack_tree stack.now) }
        requires none { headers.old ≡ [] }
        ensures read { Takes (reading.chain (drop place (stack_tree stack.now)) place (left self.old))
            (option_map (λ _. headers.new) result) (left self.new) }
        ensures few { IfSome result (λ _. length headers.new + place ≤ length (stack_tree stack.now)) }
    {
        stack.law_within_limits();
        let places = stack.places();
        let mut cursor = *self;
        headers.stretch(places - place);
        for at in place..places {
            if cursor.takes_none() {
                headers.set(at - place, none_of(at));
                continue;
            }
            let Some((header, ends)) = cursor.header(stack, at) else {
                return None
            };
            headers.set(at - place, header);
            if ends {
                headers.cut(at + 1 - place);
                *self = cursor;
                return Some(());
            }
        }
        *self = cursor;
        Some(())
    }
}

/// The header `none` of a place.
fn none_of(place: u8) -> Header
    ensures { result ≡ none_at place }
{
    Header {
        layer: place,
        tag: 0,
        fields: Fields::new(),
    }
}
