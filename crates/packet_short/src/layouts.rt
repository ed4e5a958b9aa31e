//! The plans of a stack, laid out.

ghost use Rattle.std.specs.Prelude.{◌≡◌, List, IfOk, IfSome, true};
ghost use Rattle.stack_judge.specs.Answer.{stack_tree};
ghost use Rattle.layer_mean.specs.Tree.{LayerTree};
ghost use Rattle.stack_mean.specs.Plan as mean;
ghost use Rattle.stack_shapes.specs.Trees.{plans_tree};
ghost use Rattle.packet_short.specs.Layouts.{AreLaidOut, IsFirst, IsLaidOut};

use crate::fit::print_of;
use crate::layout::{Layout, loose_of};
use crate::planned::Planned;
use layer_words::Kind;
use msg_core::{Headers, Memory};
use packet_full::Cursor;
use stack_judge::Stack;
use stack_shapes::Plans;
use std::alloc::Global;

/// How many bytes a number has.
const NUMBER_BYTES: usize = 4;

/// The headers of each plan of a stack, laid out, where they are; a short datagram under a plan that isn't laid out is
/// read header by header.
#[derive(Drop)]
pub struct Layouts {
    pub(crate) list: Vec<Option<Layout>>,
}

/// Whether the plan of a number is the first of the print that packets of a kind with the tags of these headers have.
fn is_first(plans: &Plans, kind: Kind, headers: &Headers, number: u8) -> bool
    ensures { result ≡ true → IsFirst (plans_tree plans.now) kind headers.now number }
{
    match plans.first(print_of(kind, headers)) {
        Some(first) => first == number,
        None => false,
    }
}

impl Layout {
    /// The layout of the plan of a number: its headers as they are read where all that varies is 0. None if the plan's
    /// tags and fields aren't those of a chain of the stack.
    fn of(alloc: Global, stack: &Stack, plans: &Plans, number: u8) -> Result<Option<Layout>, Memory>
        ensures { IfOk result (λ found. IfSome found
            (IsLaidOut (stack_tree stack.now) (plans_tree plans.now) number)) }
    {
        let Some(plan) = plans.get(number) else {
            return Ok(None)
        };
        let zeros = vec![in alloc; 0; plan.fields.len().saturating_mul(NUMBER_BYTES)]?;
        let mut cursor = Cursor::new(zeros.as_slice());
        let mut planned = Planned::of(plan);
        let mut headers = Headers::new();
        let Some(()) = planned.chain(&mut cursor, stack, 0, &mut headers) else {
            return Ok(None)
        };
        let Some(loose) = loose_of(alloc, plan, &headers)? else {
            return Ok(None)
        };
        let is_least = is_first(plans, plan.kind, &headers, number);
        Ok(Some(Layout {
            headers,
            loose,
            is_least,
        }))
    }
}

impl Layouts {
    /// No plan is laid out.
    pub fn new(alloc: Global) -> Layouts
        ensures { (stack : List LayerTree) (plans : List mean.Plan) → AreLaidOut stack plans result }
    {
        Layouts {
            list: Vec::new(alloc),
        }
    }

    /// All plans that can be are laid out.
    pub fn of(alloc: Global, stack: &Stack, plans: &Plans) -> Result<Layouts, Memory>
        ensures { IfOk result (AreLaidOut (stack_tree stack.now) (plans_tree plans.now)) }
    {
        let count = plans.slice().len() as u8;
        let mut list = Vec::with_capacity(alloc, usize::from(count))?;
        for number in 0..count {
            list.push(Layout::of(alloc, stack, plans, number)?)?;
        }
        Ok(Layouts { list })
    }

    /// The headers of the plan of a number, if they are laid out.
    pub(crate) fn get(&self, number: u8) -> Option<&Layout>
        ensures { (stack : List LayerTree) (plans : List mean.Plan) → AreLaidOut stack plans self.now →
            IfSome result (λ layout. IsLaidOut stack plans number layout.now) }
    {
        match self.list.as_slice().get(usize::from(number)) {
            Some(found) => found.as_ref(),
            None => None,
        }
    }
}
