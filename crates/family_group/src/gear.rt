//! What a group is played with.

ghost use Rattle.std.specs.Prelude.{◌≡◌};

use report_text::Pen;
use std::alloc::Global;
use step_outputs::Outputs;

/// Room for the outputs of a step, how many visits of layers were counted, and what lines are built in.
#[derive(Drop)]
pub struct Gear {
    pub outputs: Outputs,
    pub visits: u64,
    pub pen: Pen,
}

impl Gear {
    /// No visit is counted yet.
    pub fn new(alloc: Global, outputs: Outputs) -> Gear
        ensures { result.outputs ≡ outputs }
    {
        Gear {
            outputs,
            visits: 0,
            pen: Pen::new(alloc),
        }
    }
}
