//! The plans of a stack, and which of them a packet may fit.

ghost use Rattle.std.specs.Prelude.{◌≡◌, ◌+◌, ◌<◌, ◌≤◌, List, IfOk, length, map, slice_get, option_map};
ghost use Rattle.stack_mean.specs.Plans.{plans_of};
ghost use Rattle.stack_mean.specs.Shape.{app_cast, app_send};
ghost use Rattle.layer_mean.specs.Tree.{LayerTree};
ghost use Rattle.shape_core.specs.Cases.{case_trees, shapes_of};
ghost use Rattle.stack_shapes.specs.Lists.{plan_tree};
ghost use Rattle.stack_shapes.specs.Prints.{IsNext, print_at};
ghost use Rattle.stack_shapes.specs.Trees.{plans_tree};

use crate::index::Index;
use crate::kept::Plans;
use crate::print::Print;
use crate::types::{MOST_PLANS, Plan, PlanList};
use msg_core::Memory;
use shape_core::CaseShapes;
use std::alloc::Global;

impl Plans {
    /// The plans of the shapes of an application's own cast and send.
    pub(crate) fn of(alloc: Global, cast: &CaseShapes, send: &CaseShapes) -> Result<Plans, Memory>
        ensures { (stack : List LayerTree) → case_trees cast.now ≡ shapes_of stack app_cast →
            case_trees send.now ≡ shapes_of stack app_send →
            IfOk result (λ plans. plans_tree plans ≡ plans_of stack) }
    {
        let list = PlanList::of(alloc, cast, send)?;
        let index = Index::of(alloc, list.slice())?;
        Ok(Plans { list, index })
    }

    /// All of them, in order.
    pub fn slice(&self) -> &[Plan]
        ensures plans { map plan_tree result.now ≡ plans_tree self.now }
        ensures few { length result.now ≤ MOST_PLANS }
    {
        self.list.slice()
    }

    /// The plan of a number.
    pub fn get(&self, number: u8) -> Option<&Plan>
        ensures { option_map (λ plan. plan_tree plan.now) result ≡ slice_get (plans_tree self.now) number }
    {
        self.list.slice().get(usize::from(number))
    }

    /// The first plan of a print, if there is one. A packet fits no plan of another print.
    pub fn first(&self, print: Print) -> Option<u8>
        ensures { IsNext (plans_tree self.now) print.byte 0 result }
    {
        self.index.first[usize::from(print.byte)]
    }

    /// The next plan after one, of the same print.
    pub fn next(&self, number: u8) -> Option<u8>
        requires { number < length (plans_tree self.now) }
        ensures { IsNext (plans_tree self.now) (print_at (plans_tree self.now) number) (number + 1) result }
    {
        self.index.next[usize::from(number)]
    }
}
