//! The texts before the numbers of declared headers.

ghost use Rattle.std.specs.Prelude.{◌≡◌, ◌+◌, ◌<◌, ◌∷◌, [], IfOk, OnOk, length};
ghost use Rattle.stack_judge.specs.Answer.{stack_tree};
ghost use Rattle.report_lines.specs.Fronts.{AddFronts, AreAllFronts, tags_at};

use crate::line::Line;
use crate::names::push_front;
use msg_core::{Fields, Header, Memory};
use stack_judge::Stack;
use std::alloc::Global;

/// The texts `LAYER.HEADER(` of the declared headers of a stack, one after the other: where each begins, and where the
/// last one ends. For each place, the number of its first header and, last, the number of all headers.
#[derive(Drop)]
pub(crate) struct Fronts {
    pub(crate) texts: Line,
    pub(crate) begins: Vec<usize>,
    pub(crate) firsts: Vec<usize>,
}

/// How many headers of a place have a tag of eight bits.
fn tags_of(stack: &Stack, place: u8) -> u8
    requires { place < length (stack_tree stack.now) }
    ensures { result ≡ tags_at (stack_tree stack.now) place }
{
    let count = stack.layer(place).headers.len();
    if count < 255 { count as u8 } else { 255 }
}

impl Fronts {
    /// Those of no place.
    pub(crate) fn new(alloc: Global) -> Result<Fronts, Memory>
        ensures { IfOk result (λ fronts. (fronts.texts ≡ []) × (fronts.begins.items ≡ 0 ∷ []) ×
            (fronts.firsts.items ≡ 0 ∷ [])) }
    {
        let mut begins = Vec::new(alloc);
        let mut firsts = Vec::new(alloc);
        begins.push(0)?;
        firsts.push(0)?;
        Ok(Fronts {
            texts: Line::new(alloc),
            begins,
            firsts,
        })
    }

    /// Lays a header out.
    fn push(&mut self, stack: &Stack, header: &Header) -> Result<(), Memory>
        ensures fronts { OnOk result
            (AddFronts (stack_tree stack.now) (header.now ∷ []) self.old.texts self.old.begins.items
            self.new.texts self.new.begins.items) }
        ensures firsts { self.new.firsts ≡ self.old.firsts }
    {
        push_front(&mut self.texts, stack, header)?;
        self.begins.push(self.texts.slice().len())?;
        Ok(())
    }

    /// Lays the headers of the next place out.
    pub(crate) fn push_place(&mut self, stack: &Stack, place: u8) -> Result<(), Memory>
        requires { place < length (stack_tree stack.now) }
        ensures { OnOk result (
            AreAllFronts (stack_tree stack.now) place self.old.texts self.old.begins.items self.old.firsts.items →
            AreAllFronts (stack_tree stack.now) (place + 1) self.new.texts self.new.begins.items
            self.new.firsts.items) }
    {
        for number in 0..tags_of(stack, place) {
            let header = Header {
                layer: place,
                tag: number + 1,
                fields: Fields::new(),
            };
            self.push(stack, &header)?;
        }
        self.firsts.push(self.begins.len().saturating_sub(1))?;
        Ok(())
    }
}
