//! Groups that begin, and what they are made of.

use code_table::Codes;
use group_world::{Examined, World};
use live_layer::Maker;
use report_lines::NamedStack;
use stack_shapes::{EntryShapes, PlanStarts, Plans, StackShapes};
use std::rc::Rc;
use step_outputs::Outputs;

/// A stack with its plans and the shapes of its entries, and a maker of its layers.
#[derive(Drop)]
pub(crate) struct Drawn {
    pub maker: Maker,
    pub stack: NamedStack,
    pub shapes: StackShapes,
}

/// What a run over a stack is made of: what `prepare` makes, and a member or a group is opened of.
#[derive(Drop)]
pub struct Parts {
    pub maker: Maker,
    pub stack: NamedStack,
    pub plans: Rc<Plans>,
    pub entries: Rc<EntryShapes>,
    pub starts: PlanStarts,
    /// The code of its bypasses, if members run by it.
    pub codes: Option<Rc<Codes>>,
    pub outputs: Outputs,
}

/// A group that begins, with the stack that it is over, its plans, the shapes of its entries, and room for the outputs
/// of a step.
pub struct Opened {
    pub stack: NamedStack,
    pub plans: Rc<Plans>,
    pub entries: Rc<EntryShapes>,
    pub outputs: Outputs,
    pub group: World,
}

/// A group that begins and is examined, with the stack that it is over, its plans, the shapes of its entries, and room
/// for the outputs of a step.
pub struct Examination {
    pub stack: NamedStack,
    pub plans: Rc<Plans>,
    pub entries: Rc<EntryShapes>,
    pub outputs: Outputs,
    pub group: Examined,
}
