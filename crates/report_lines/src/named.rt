//! Stacks with the headers of their layers by name.

ghost use Rattle.std.specs.Prelude.{◌≡◌, ◌+◌, ◌-◌, ◌<◌, ◌≤◌, ◌++◌, IfOk, OnOk, drop, length, slice_index_or, take};
ghost use Rattle.std.specs.Rc.{rc_value};
ghost use Rattle.layer_mean.specs.Tree.{no_layer};
ghost use Rattle.typed_layer.specs.View.{layer_tree};
ghost use Rattle.stack_judge.specs.Answer.{stack_tree};
ghost use Rattle.report_lines.specs.Fronts.{IsFront, IsNumber, declared_headers, header_of};
ghost use Rattle.report_lines.specs.Nones.{slashed_headers, first_nones, header_front, none_of, nones, slashed_header};

use crate::fronts::Fronts;
use msg_core::Memory;
use stack_judge::Stack;
use std::alloc::Global;
use std::marker::Model;
use std::rc::Rc;
use typed_layer::TypedLayer;

/// A stack, which contracts see, and the texts `LAYER.none()/` of its layers one after the other: where each begins,
/// and where the last one ends. Those before the numbers of its declared headers are laid out in the same way.
#[derive(Drop)]
pub struct NamedStack {
    stack: Rc<Stack>,
    texts: Vec<u8>,
    places: Vec<usize>,
    fronts: Fronts,
}

impl Model for NamedStack {
    ghost use Rattle.std.specs.Coded.{codes};
    ghost use Rattle.std.specs.Rc.{rc_value};
    ghost use Rattle.stack_judge.specs.Answer.{stack_tree};
    ghost use Rattle.stack_judge.specs.contracts.stack.Stack as stack_row;
    ghost use Rattle.stack_judge.specs.declared.stack.Stack.{Stack};
    ghost use Rattle.std.specs.Prelude.{length};
    ghost use Rattle.report_lines.specs.Fronts.{AreAllFronts};
    ghost use Rattle.report_lines.specs.Nones.{AreLaidOut};

    ghost Value = { Stack };

    ghost coded = { Prim.hlevel (codes, stack_row.the_row.coded) };

    ghost view = { λ n. rc_value n.stack };

    ghost invariant = { λ n. AreLaidOut (stack_tree (rc_value n.stack)) n.texts.items n.places.items
        × AreAllFronts (stack_tree (rc_value n.stack)) (length (stack_tree (rc_value n.stack))) n.fronts.texts
        n.fronts.begins.items
        n.fronts.firsts.items };
}

/// Appends `LAYER.none()/`.
fn push_none(texts: &mut Vec<u8>, stack: &Stack, place: u8) -> Result<(), Memory>
    requires { place < length (stack_tree stack.now) }
    ensures { OnOk result (texts.new.items ≡ texts.old.items ++ slashed_header (stack_tree stack.now) (none_of place)) }
{
    texts.extend_from_slice(stack.layer(place).name.bytes())?;
    texts.extend_from_slice(b".none()/")?;
    Ok(())
}

/// The bytes from one place to another.
fn part(bytes: &[u8], from: usize, to: usize) -> &[u8]
    requires { (from ≤ to) × (to ≤ length bytes.now) }
    ensures { result.now ≡ take (to - from) (drop from bytes.now) }
{
    &bytes[from..to]
}

impl NamedStack {
    /// This stack with its texts.
    pub fn of(alloc: Global, stack: Rc<Stack>) -> Result<NamedStack, Memory>
        ensures { IfOk result (λ named. named ≡ rc_value stack) }
    {
        let mut texts = Vec::new(alloc);
        let mut places = Vec::new(alloc);
        let mut fronts = Fronts::new(alloc)?;
        places.push(0)?;
        for place in 0..stack.places() {
            push_none(&mut texts, &stack, place)?;
            places.push(texts.len())?;
            fronts.push_place(&stack, place)?;
        }
        Ok(NamedStack {
            stack,
            texts,
            places,
            fronts,
        })
    }

    /// The stack alone.
    pub fn stack(&self) -> &Rc<Stack>
        ensures { rc_value result.now ≡ self.now }
    {
        &self.stack
    }

    /// How many places it has.
    pub fn places(&self) -> u8
        ensures { result ≡ length (stack_tree self.now) }
    {
        self.stack.places()
    }

    /// The layer at a place, the lowest being 0.
    pub fn layer(&self, place: u8) -> &Rc<TypedLayer>
        requires { place < length (stack_tree self.now) }
        ensures { layer_tree (rc_value result.now) ≡ slice_index_or (stack_tree self.now) place no_layer }
    {
        self.stack.layer(place)
    }

    /// Where the text of a place begins, and after the last one where it ends.
    fn begin(&self, place: u8) -> usize
        requires { place ≤ length (stack_tree self.now) }
        ensures { result ≡ length (first_nones (stack_tree self.now) place) }
    {
        self.places[usize::from(place)]
    }

    /// The number of a place's header with a tag among those that are laid out, if it is one.
    fn number_of(&self, place: u8, tag: u8) -> Option<usize>
        ensures { IsNumber (stack_tree self.now) place tag result }
    {
        if place >= self.places() {
            return None;
        }
        if tag == 0 {
            return None;
        }
        let first = self.fronts.firsts[usize::from(place)];
        let next = self.fronts.firsts[usize::from(place) + 1];
        let following = usize::from(tag) - 1;
        if following < next - first {
            Some(first + following)
        } else {
            None
        }
    }

    /// The text before the numbers of the header with this number among those that are laid out.
    fn front_numbered(&self, number: usize) -> &[u8]
        requires { number < length (declared_headers (stack_tree self.now) (length (stack_tree self.now))) }
        ensures { result.now ≡ header_front (stack_tree self.now)
            (slice_index_or (declared_headers (stack_tree self.now) (length (stack_tree self.now))) number
            (header_of 0 0)) }
    {
        let (from, to) = (self.fronts.begins[number], self.fronts.begins[number + 1]);
        part(self.fronts.texts.slice(), from, to)
    }

    /// `LAYER.HEADER(` for the header of a place with a tag, if it is laid out.
    pub(crate) fn front(&self, place: u8, tag: u8) -> Option<&[u8]>
        ensures { IsFront (stack_tree self.now) place tag result }
    {
        match self.number_of(place, tag) {
            Some(number) => Some(self.front_numbered(number)),
            None => None,
        }
    }

    /// The headers `none` of `count` places from `first` on, each with `/` after it.
    pub(crate) fn nones(&self, first: u8, count: u8) -> &[u8]
        requires { first + count ≤ length (stack_tree self.now) }
        ensures { result.now ≡ slashed_headers (stack_tree self.now) (nones first count) }
    {
        let (from, to) = (self.begin(first), self.begin(first + count));
        part(self.texts.as_slice(), from, to)
    }
}
