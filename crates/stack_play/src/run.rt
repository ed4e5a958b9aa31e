//! What a run keeps from event to event.

ghost use Rattle.std.specs.Prelude.{◌≡◌};

use report_text::Pen;
use std::alloc::Global;
use step_outputs::Outputs;

/// The outputs of the last step, the visits of all steps, and what lines are built in.
#[derive(Drop)]
pub(crate) struct Run {
    pub outputs: Outputs,
    pub visits: u64,
    pub pen: Pen,
}

impl Run {
    /// No visit is counted yet.
    pub(crate) fn new(alloc: Global, outputs: Outputs) -> Run
        ensures outputs { result.outputs ≡ outputs }
        ensures visits { result.visits ≡ 0 }
    {
        Run {
            outputs,
            visits: 0,
            pen: Pen::new(alloc),
        }
    }
}
