//! Where the plans of each print stand.

ghost use Rattle.std.specs.Prelude.{◌≤◌, IfOk, length, map};
ghost use Rattle.stack_shapes.specs.Lists.{plan_tree};
ghost use Rattle.stack_shapes.specs.Prints.{Indexes};

use crate::print::print_of;
use crate::types::{MOST_PLANS, Plan};
use msg_core::Memory;
use std::alloc::Global;

/// How many prints there are.
const PRINTS: usize = 256;

/// For each print the first plan of it, and for each plan the next one of its print.
#[derive(Drop)]
pub(crate) struct Index {
    pub(crate) first: Vec<Option<u8>>,
    pub(crate) next: Vec<Option<u8>>,
}

impl Index {
    /// The index of plans.
    pub(crate) fn of(alloc: Global, plans: &[Plan]) -> Result<Index, Memory>
        requires { length plans.now ≤ MOST_PLANS }
        ensures { IfOk result (λ index. Indexes (map plan_tree plans.now) index.first.items index.next.items) }
    {
        let mut first = vec![in alloc; None; PRINTS]?;
        let mut next = vec![in alloc; None; plans.len()]?;
        for number in (0..plans.len()).rev() {
            let print = usize::from(print_of(&plans[number]).byte);
            next[number] = first[print];
            first[print] = Some(number as u8);
        }
        Ok(Index { first, next })
    }
}
