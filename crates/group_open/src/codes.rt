//! What is made of a stack's bypasses: the code by which the members of a group may run, and the checks by which it is
//! told what a step lacked.

ghost use Rattle.std.specs.Prelude.{◌≡◌, IfOk};
ghost use Rattle.std.specs.Option.{option_map};
ghost use Rattle.std.specs.Rc.{rc_value};
ghost use Rattle.code_table.specs.Codes.{codes_of};
ghost use Rattle.bypass_laws.specs.Making.{IsSound};
ghost use Rattle.bypass_laws.specs.Stack.{AreOfStack};
ghost use Rattle.group_member.specs.Serving.{AreCodesOf};
ghost use Rattle.stack_judge.specs.Answer.{stack_tree};
ghost use Rattle.group_mean.specs.Shown.{shown_mode};
ghost use Rattle.miss_laws.specs.Asked.{all_asked};
ghost use Rattle.stack_mean.specs.Plans.{plans_of};
ghost use Rattle.stack_shapes.specs.Shapes.{short_shapes};
ghost use Rattle.stack_shapes.specs.Trees.{plans_tree};
ghost use Rattle.trace_core.specs.Bypasses.{bypasses_tree};
ghost use Rattle.group_open.specs.Opening.{AreExamining, CanRun, CodesFor};

use code_table::Codes;
use group_mean::Mode;
use guard_checks::StackChecks;
use stack_judge::Stack;
use stack_shapes::StackShapes;
use std::alloc::{AllocError, Global};
use std::rc::Rc;
use synth::synth;
use trace_core::Bypasses;

/// The code of bypasses, for members to share.
fn code_of(alloc: Global, bypasses: &Bypasses) -> Result<Rc<Codes>, AllocError>
    ensures { IfOk result (λ codes. rc_value codes ≡ codes_of (bypasses_tree bypasses.now)) }
{
    let codes = Codes::of(alloc, bypasses)?;
    Ok(Rc::new(alloc, codes)?)
}

/// The code of bypasses that are a stack's, for members to share.
pub(crate) fn given_code(
    alloc: Global,
    bypasses: &Bypasses,
    _stack: &Stack,
) -> Result<Rc<Codes>, AllocError>
    requires { AreOfStack (stack_tree _stack.now) (bypasses_tree bypasses.now) }
    ensures { IfOk result (λ codes. AreCodesOf (stack_tree _stack.now) (rc_value codes)) }
{
    code_of(alloc, bypasses)
}

/// The code of the bypasses that are made of a stack.
fn stack_code(alloc: Global, stack: &Stack, shapes: &StackShapes) -> Result<Rc<Codes>, AllocError>
    requires sound { IsSound (stack_tree stack.now) }
    requires plans { plans_tree shapes.now.plans ≡ plans_of (stack_tree stack.now) }
    requires entries { shapes.now.entries ≡ short_shapes (stack_tree stack.now) (plans_of (stack_tree stack.now)) }
    ensures { IfOk result (λ codes. AreCodesOf (stack_tree stack.now) (rc_value codes)) }
{
    let bypasses = synth(alloc, stack, shapes)?;
    given_code(alloc, &bypasses, stack)
}

/// The code of the bypasses that are made of a stack if members run by bypasses, and else none.
pub(crate) fn codes_for(
    alloc: Global,
    mode: Mode,
    stack: &Stack,
    shapes: &StackShapes,
) -> Result<Option<Rc<Codes>>, AllocError>
    requires runs { CanRun (shown_mode mode) (stack_tree stack.now) }
    requires plans { plans_tree shapes.now.plans ≡ plans_of (stack_tree stack.now) }
    requires entries { shapes.now.entries ≡ short_shapes (stack_tree stack.now) (plans_of (stack_tree stack.now)) }
    ensures { IfOk result (λ codes. CodesFor (shown_mode mode) (stack_tree stack.now) (option_map rc_value codes)) }
{
    match mode {
        Mode::Layered => Ok(None),
        Mode::Bypass => Ok(Some(stack_code(alloc, stack, shapes)?)),
    }
}

/// The code of bypasses, and their checks.
fn code_and_checks(
    alloc: Global,
    bypasses: &Bypasses,
) -> Result<(Rc<Codes>, StackChecks), AllocError>
    ensures { IfOk result (λ made. (rc_value made.0 ≡ codes_of (bypasses_tree bypasses.now)) ×
        (made.1 ≡ all_asked (bypasses_tree bypasses.now))) }
{
    let codes = code_of(alloc, bypasses)?;
    let checks = StackChecks::of(alloc, bypasses)?;
    Ok((codes, checks))
}

/// The code of the bypasses that are made of a stack, and their checks.
pub(crate) fn examining_codes(
    alloc: Global,
    stack: &Stack,
    shapes: &StackShapes,
) -> Result<(Rc<Codes>, StackChecks), AllocError>
    requires sound { IsSound (stack_tree stack.now) }
    requires plans { plans_tree shapes.now.plans ≡ plans_of (stack_tree stack.now) }
    requires entries { shapes.now.entries ≡ short_shapes (stack_tree stack.now) (plans_of (stack_tree stack.now)) }
    ensures { IfOk result (λ made. AreExamining (stack_tree stack.now) (rc_value made.0) made.1) }
{
    let bypasses = synth(alloc, stack, shapes)?;
    code_and_checks(alloc, &bypasses)
}
