//! A member that begins alone.

use group_member::Member;
use stack_shapes::Plans;
use std::rc::Rc;
use step_outputs::Outputs;

/// A member that begins alone, with the plans of its stack, and room for the outputs of a step.
pub struct OpenMember {
    pub plans: Rc<Plans>,
    pub outputs: Outputs,
    pub member: Member,
}
