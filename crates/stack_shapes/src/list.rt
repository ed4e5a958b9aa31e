//! The plans of a stack, as they are gathered.

ghost use Rattle.std.specs.Prelude.{◌≡◌, ◌≤◌, ◌++◌, List, IfOk, OnOk, length, map, take, vec_len};
ghost use Rattle.layer_mean.specs.Tree.{LayerTree};
ghost use Rattle.stack_mean.specs.Plans.{outs_of, plan_of, plans_limit, plans_of};
ghost use Rattle.stack_mean.specs.Shape.{app_cast, app_send};
ghost use Rattle.shape_core.specs.Cases.{case_trees, drawn_tree, shapes_of};
ghost use Rattle.shape_core.specs.Sketch.{out_tree};
ghost use Rattle.stack_shapes.specs.Lists.{list_tree, packets_in, plan_tree, plan_or_none};

use crate::plan::{is_packet, plan_of};
use crate::types::{MOST_PLANS, Plan, PlanList};
use msg_core::Memory;
use shape_core::{Absent, CaseShapes, Shape, ShapeOut};
use std::alloc::Global;

impl PlanList {
    /// The plans of the shapes of an application's own cast and send, in their order.
    pub(crate) fn of(
        alloc: Global,
        cast: &CaseShapes,
        send: &CaseShapes,
    ) -> Result<PlanList, Memory>
        ensures { (stack : List LayerTree) → case_trees cast.now ≡ shapes_of stack app_cast →
            case_trees send.now ≡ shapes_of stack app_send →
            IfOk result (λ plans. list_tree plans ≡ plans_of stack) }
    {
        let mut plans = PlanList {
            list: Vec::new(alloc),
        };
        plans.add_group(alloc, &cast.first)?;
        plans.add_group(alloc, &send.first)?;
        plans.add_group(alloc, &cast.second)?;
        plans.add_group(alloc, &send.second)?;
        Ok(plans)
    }

    /// All of them, in order.
    pub(crate) fn slice(&self) -> &[Plan]
        ensures plans { map plan_tree result.now ≡ list_tree self.now }
        ensures few { length result.now ≤ MOST_PLANS }
    {
        self.list.as_slice()
    }

    /// Adds the plan of an output, if it is a packet and there is room.
    fn add(&mut self, alloc: Global, out: &ShapeOut) -> Result<(), Memory>
        ensures { OnOk result
            (list_tree self.new ≡ take plans_limit (list_tree self.old ++ plan_or_none (out_tree out.now))) }
    {
        if !is_packet(out) {
            return Ok(());
        }
        if self.list.len() < MOST_PLANS {
            self.list.push(plan_of(alloc, out)?)?;
        }
        Ok(())
    }

    /// Adds the plans of outputs.
    fn add_outs(&mut self, alloc: Global, outs: &[ShapeOut]) -> Result<(), Memory>
        ensures { OnOk result
            (list_tree self.new ≡
            take plans_limit (list_tree self.old ++ map plan_of (packets_in (map out_tree outs.now)))) }
    {
        for out in outs {
            self.add(alloc, out)?;
        }
        Ok(())
    }

    /// Adds the plans of a shape's packets; there are none where there is no shape.
    fn add_group(&mut self, alloc: Global, drawn: &Result<Shape, Absent>) -> Result<(), Memory>
        ensures { OnOk result
            (list_tree self.new ≡
            take plans_limit (list_tree self.old ++ map plan_of (packets_in (outs_of (drawn_tree drawn.now))))) }
    {
        match drawn {
            Ok(shape) => self.add_outs(alloc, shape.outs.as_slice()),
            Err(_) => Ok(()),
        }
    }
}
