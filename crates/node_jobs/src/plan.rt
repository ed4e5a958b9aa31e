//! Plans of nodes, read from a shelf and judged.

ghost use Rattle.script_mean.specs.NodePlan.{node_plan};
ghost use Rattle.file_jobs.specs.Second.{Fetches, Judges};
ghost use Rattle.node_jobs.specs.Plan.{IsServable};

use file_jobs::{fetch_second, refusal};
use job_ends::Ending;
use outside::Shelf;
use script_mean::NodePlan;
use script_text::read_plan;
use std::alloc::Global;

/// Reads the plan of a node, or finds how the job ends.
pub(crate) fn fetch_plan<S: Shelf>(
    alloc: Global,
    name: &str,
    shelf: &mut S,
) -> Result<NodePlan, Ending>
    ensures { Fetches node_plan IsServable name.now (S.told shelf.old) (S.faults shelf.old) (S.faults shelf.new)
        result }
{
    match fetch_second(alloc, name, shelf) {
        Ok(text) => judged(alloc, &text),
        Err(ending) => Err(ending),
    }
}

/// The plan of a text, or why it is refused.
fn judged(alloc: Global, text: &[u8]) -> Result<NodePlan, Ending>
    ensures { Judges node_plan IsServable text.now result }
{
    match read_plan(alloc, text) {
        Ok(plan) => Ok(plan),
        Err(error) => Err(refusal(error)),
    }
}
