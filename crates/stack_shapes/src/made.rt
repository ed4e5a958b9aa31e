//! The shapes of the entries of a stack.

ghost use Rattle.std.specs.Prelude.{◌≡◌, [], map, IfOk};
ghost use Rattle.layer_words.specs.declared.events.Dir.TheVariants.{Down};
ghost use Rattle.stack_judge.specs.Answer.{stack_tree};
ghost use Rattle.shape_core.specs.Cases.{case_trees, shapes_of};
ghost use Rattle.shape_core.specs.Sketch.{known_tree};
ghost use Rattle.stack_shapes.specs.Lists.{plan_tree};
ghost use Rattle.stack_shapes.specs.Shapes.{kept_shapes, plan_shapes};
ghost use Rattle.stack_shapes.specs.Starts.{HaveFewOuts};

use crate::cases::limited_cases;
use crate::types::Plan;
use layer_words::{Dir, Kind};
use msg_core::Memory;
use shape_core::{CaseShapes, Known, shapes};
use stack_judge::Stack;
use std::alloc::Global;

/// The shapes of an application's own event of a kind, however long they are.
pub(crate) fn app_shapes(alloc: Global, stack: &Stack, kind: Kind) -> Result<CaseShapes, Memory>
    ensures few { IfOk result (λ drawn. HaveFewOuts (case_trees drawn)) }
    ensures drawn { IfOk result
        (λ drawn. case_trees drawn ≡ shapes_of (stack_tree stack.now) (record { dir = Down; kind = kind; tags = [] })) }
{
    let known = Known {
        dir: Dir::Down,
        kind,
        tags: Vec::new(alloc),
    };
    Ok(shapes(alloc, stack, &known)?)
}

/// The shapes of an entry that aren't too long.
#[tactic(auto, using(crate::proofs::Held::kept_are))]
fn kept_shapes(alloc: Global, stack: &Stack, known: &Known) -> Result<CaseShapes, Memory>
    ensures { IfOk result (λ kept. case_trees kept ≡ kept_shapes (stack_tree stack.now) (known_tree known.now)) }
{
    let drawn = shapes(alloc, stack, known)?;
    Ok(limited_cases(drawn))
}

/// The shapes of a plan's packets.
fn plan_shapes(alloc: Global, stack: &Stack, plan: &Plan) -> Result<CaseShapes, Memory>
    ensures { IfOk result (λ kept. case_trees kept ≡ plan_shapes (stack_tree stack.now) (plan_tree plan.now)) }
{
    let known = Known {
        dir: Dir::Up,
        kind: plan.kind,
        tags: Vec::from_slice(alloc, plan.tags.as_slice())?,
    };
    kept_shapes(alloc, stack, &known)
}

/// The shapes of each plan's packets.
pub(crate) fn all_shapes(
    alloc: Global,
    stack: &Stack,
    plans: &[Plan],
) -> Result<Vec<CaseShapes>, Memory>
    ensures { IfOk result
        (λ all. map case_trees all.items ≡ map (plan_shapes (stack_tree stack.now)) (map plan_tree plans.now)) }
{
    let mut all = Vec::with_capacity(alloc, plans.len())?;
    for plan in plans {
        all.push(plan_shapes(alloc, stack, plan)?)?;
    }
    Ok(all)
}
