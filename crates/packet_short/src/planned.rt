//! What is left of a plan while headers are read by it.

ghost use Rattle.std.specs.Prelude.{◌≡◌, ℕ, ◌+◌, ◌<◌, ◌≤◌, List, [], if◌then◌else◌, IfSome, None, Some, drop, length};
ghost use Rattle.std.specs.Prelude.{option_map, slice_index_or};
ghost use Rattle.stack_judge.specs.Answer.{stack_tree};
ghost use Rattle.layer_mean.specs.Tree.{no_layer};
ghost use Rattle.packet_full.specs.Taking.{Takes, left};
ghost use Rattle.packet_short.specs.Dealing as dealing;
ghost use Rattle.msg_core.specs.Headers.{most_fields};

use msg_core::{Fields, Header, Headers};
use packet_full::{Cursor, form_at};
use stack_judge::Stack;
use stack_shapes::Plan;

/// The tags and the fields of a plan that are still to be read.
#[derive(Drop)]
pub(crate) struct Planned<'a> {
    tags: &'a [u8],
    fields: &'a [Option<u32>],
}

/// A planned field: a constant is known, and a variable one is a number that is read.
fn field(cursor: &mut Cursor<'_>, planned: Option<u32>) -> Option<u32>
    ensures { Takes (dealing.field planned (left cursor.old)) result (left cursor.new) }
{
    match planned {
        Some(constant) => Some(constant),
        None => cursor.number(),
    }
}

/// The place after a header: the one above, or none where it closes the chain.
fn next_place(stack: &Stack, place: u8, ends: bool) -> u8
    requires { place < length (stack_tree stack.now) }
    ensures { result ≡ (if ends then length (stack_tree stack.now) else place + 1) }
{
    if ends { stack.places() } else { place + 1 }
}

impl<'a> Planned<'a> {
    /// All of a plan.
    pub(crate) fn of(plan: &'a Plan) -> Planned<'a>
        ensures tags { result.tags.now ≡ plan.now.tags.items }
        ensures fields { result.fields.now ≡ plan.now.fields.items }
    {
        Planned {
            tags: plan.tags.as_slice(),
            fields: plan.fields.as_slice(),
        }
    }

    /// Whether nothing more is planned.
    fn is_done(&self) -> bool
        ensures { (bytes : List ℕ) → dealing.done self.now.tags.now self.now.fields.now bytes ≡
            (if result then Some ([], bytes) else None) }
    {
        self.tags.is_empty() && self.fields.is_empty()
    }

    /// The first `count` planned fields.
    fn fields(&mut self, cursor: &mut Cursor<'_>, count: u8) -> Option<Fields>
        requires { count ≤ most_fields }
        ensures read { Takes (dealing.fields count self.old.fields.now (left cursor.old))
            (option_map (λ own. (own, self.new.fields.now)) result) (left cursor.new) }
        ensures tags { self.new.tags ≡ self.old.tags }
    {
        let mut fields = Fields::new();
        for _ in 0..count {
            let Some((first, rest)) = self.fields.split_first() else {
                return None
            };
            let Some(number) = field(cursor, *first) else {
                return None
            };
            fields.push(number);
            self.fields = rest;
        }
        Some(fields)
    }

    /// The header of a place's layer that has the next tag, and whether it closes the chain.
    fn header(
        &mut self,
        cursor: &mut Cursor<'_>,
        stack: &Stack,
        place: u8,
    ) -> Option<(Header, bool)>
        requires { place < length (stack_tree stack.now) }
        ensures { Takes (dealing.header (slice_index_or (stack_tree stack.now) place no_layer) place self.old.tags.now
            self.old.fields.now (left cursor.old))
            (option_map (λ header. (header, (self.new.tags.now, self.new.fields.now))) result) (left cursor.new) }
    {
        let (tag, more) = self.tags.split_first()?;
        let form = form_at(stack, place, *tag)?;
        let fields = self.fields(cursor, form.fields)?;
        self.tags = more;
        Some((
            Header {
                layer: place,
                tag: *tag,
                fields,
            },
            form.ends,
        ))
    }

    /// The headers of the layers from a place on, as planned.
    pub(crate) fn chain(
        &mut self,
        cursor: &mut Cursor<'_>,
        stack: &Stack,
        place: u8,
        headers: &mut Headers,
    ) -> Option<()>
        requires place { place ≤ length (stack_tree stack.now) }
        requires none { headers.old ≡ [] }
        ensures read { Takes (dealing.dealing (drop place (stack_tree stack.now)) place self.old.tags.now
            self.old.fields.now (left cursor.old)) (option_map (λ _. headers.new) result) (left cursor.new) }
        ensures few { IfSome result (λ _. length headers.new + place ≤ length (stack_tree stack.now)) }
    {
        stack.law_within_limits();
        if place == stack.places() {
            if self.is_done() {
                return Some(());
            }
            return None;
        }
        let Some((header, ends)) = self.header(cursor, stack, place) else {
            return None
        };
        let next = next_place(stack, place, ends);
        let Some(()) = self.chain(cursor, stack, next, headers) else {
            return None
        };
        headers.push_front(header);
        Some(())
    }
}
