//! What makes the layers of a stack.

use stack_judge::Stack;
use std::alloc::{AllocError, Global};
use std::rc::Rc;

/// The stack whose layers are made, and how many were made. All layers that members have are made here.
#[derive(Drop)]
pub struct Maker {
    pub(crate) stack: Rc<Stack>,
    pub(crate) made: u64,
}

impl Maker {
    ghost use Rattle.std.specs.Prelude.{◌≡◌, IfOk};
    ghost use Rattle.std.specs.Rc.{rc_value};
    ghost use Rattle.stack_judge.specs.Answer.{stack_tree};
    ghost use Rattle.live_layer.specs.Making.{making};

    /// The maker of a stack's layers, of which none is made yet, and the stack for others to share.
    #[tactic(auto, unfolding(crate::specs::Making::making))]
    pub fn of(alloc: Global, stack: Stack) -> Result<(Maker, Rc<Stack>), AllocError>
        ensures maker { IfOk result (λ made. making made.0 ≡ record { stack = stack_tree stack; made = 0 }) }
        ensures stack { IfOk result (λ made. stack_tree (rc_value made.1) ≡ stack_tree stack) }
    {
        let stack = Rc::new(alloc, stack)?;
        let shared = stack.clone()?;
        Ok((Maker { stack, made: 0 }, shared))
    }
}
