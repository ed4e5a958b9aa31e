//! What is drawn of a stack.

ghost use Rattle.std.specs.Prelude.{◌≡◌, IfOk};
ghost use Rattle.stack_mean.specs.Plans.{plans_of};
ghost use Rattle.stack_judge.specs.Answer.{stack_tree};
ghost use Rattle.stack_shapes.specs.Shapes.{short_shapes};
ghost use Rattle.stack_shapes.specs.Starts.{starts_of, starts_tree};
ghost use Rattle.stack_shapes.specs.Trees.{plans_tree};

use crate::cases::limited_cases;
use crate::entries::EntryShapes;
use crate::kept::Plans;
use crate::made::{all_shapes, app_shapes};
use crate::starts::PlanStarts;
use layer_words::Kind;
use msg_core::Memory;
use stack_judge::Stack;
use std::alloc::Global;

/// The plans of a stack, where those of an application's own events begin, and the shapes of its entries.
#[derive(Drop)]
pub struct StackShapes {
    pub plans: Plans,
    pub starts: PlanStarts,
    pub entries: EntryShapes,
}

impl StackShapes {
    /// The plans, starts and shapes of a stack. There is one plan for each packet that an application's own cast, then
    /// its send, is predicted to send, in the first case and then in the second; packets after the first `MOST_PLANS`
    /// have none. Each shape is drawn once. Err comes only where memory runs out.
    pub fn of(alloc: Global, stack: &Stack) -> Result<StackShapes, Memory>
        ensures plans { IfOk result (λ s. plans_tree s.plans ≡ plans_of (stack_tree stack.now)) }
        ensures starts { IfOk result (λ s. starts_tree s.starts ≡ starts_of (stack_tree stack.now)) }
        ensures entries { IfOk result
            (λ s. s.entries ≡ short_shapes (stack_tree stack.now) (plans_of (stack_tree stack.now))) }
    {
        let cast = app_shapes(alloc, stack, Kind::Cast)?;
        let send = app_shapes(alloc, stack, Kind::Send)?;
        let plans = Plans::of(alloc, &cast, &send)?;
        let starts = PlanStarts::count(&cast, &send);
        let packets = all_shapes(alloc, stack, plans.slice())?;
        let entries = EntryShapes {
            cast: limited_cases(cast),
            send: limited_cases(send),
            plans: packets,
        };
        Ok(StackShapes {
            plans,
            starts,
            entries,
        })
    }
}
