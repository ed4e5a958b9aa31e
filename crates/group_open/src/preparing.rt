//! What runs begin with.

ghost use Rattle.std.specs.Prelude.{IfOk};
ghost use Rattle.std.specs.Option.{option_map};
ghost use Rattle.std.specs.Rc.{rc_value};
ghost use Rattle.bypass_laws.specs.Making.{IsSound};
ghost use Rattle.bypass_laws.specs.Stack.{AreOfStack};
ghost use Rattle.stack_judge.specs.Answer.{stack_tree};
ghost use Rattle.group_mean.specs.Shown.{shown_mode};
ghost use Rattle.run_mean.specs.Mode.{bypass};
ghost use Rattle.trace_core.specs.Bypasses.{bypasses_tree};
ghost use Rattle.group_open.specs.Opening.{ArePartsOf, CanRun, IsDrawn, IsExaminable, IsPrepared};

use crate::codes::{codes_for, examining_codes, given_code};
use crate::run::{Drawn, Parts};
use code_table::Codes;
use group_mean::Mode;
use guard_checks::StackChecks;
use live_layer::Maker;
use msg_core::Memory;
use report_lines::NamedStack;
use stack_judge::Stack;
use stack_shapes::StackShapes;
use std::alloc::Global;
use std::rc::Rc;
use step_outputs::Outputs;
use trace_core::Bypasses;

/// Draws the plans of a stack and the shapes of its entries.
fn draw(alloc: Global, stack: Stack) -> Result<Drawn, Memory>
    ensures { IfOk result (IsDrawn (stack_tree stack)) }
{
    let (maker, stack) = Maker::of(alloc, stack)?;
    let stack = NamedStack::of(alloc, stack)?;
    let shapes = StackShapes::of(alloc, stack.stack())?;
    Ok(Drawn {
        maker,
        stack,
        shapes,
    })
}

/// What a run over a stack that is drawn is made of.
fn parts_of(alloc: Global, drawn: Drawn, codes: Option<Rc<Codes>>) -> Result<Parts, Memory>
    ensures { IfOk result (ArePartsOf drawn (option_map rc_value codes)) }
{
    let Drawn {
        maker,
        stack,
        shapes,
    } = drawn;
    let StackShapes {
        plans,
        starts,
        entries,
    } = shapes;
    let outputs = Outputs::new(alloc, stack.stack())?;
    Ok(Parts {
        maker,
        stack,
        plans: Rc::new(alloc, plans)?,
        entries: Rc::new(alloc, entries)?,
        starts,
        codes,
        outputs,
    })
}

/// What a run over a stack in a mode is made of.
pub fn prepare(alloc: Global, mode: Mode, stack: Stack) -> Result<Parts, Memory>
    requires { CanRun (shown_mode mode) (stack_tree stack) }
    ensures { IfOk result (IsPrepared (shown_mode mode) (stack_tree stack)) }
{
    let drawn = draw(alloc, stack)?;
    let codes = codes_for(alloc, mode, drawn.stack.stack(), &drawn.shapes)?;
    parts_of(alloc, drawn, codes)
}

/// What a run by given bypasses is made of.
pub(crate) fn prepare_with(
    alloc: Global,
    bypasses: &Bypasses,
    stack: Stack,
) -> Result<Parts, Memory>
    requires { AreOfStack (stack_tree stack) (bypasses_tree bypasses.now) }
    ensures { IfOk result (IsPrepared bypass (stack_tree stack)) }
{
    let drawn = draw(alloc, stack)?;
    let codes = given_code(alloc, bypasses, drawn.stack.stack())?;
    parts_of(alloc, drawn, Some(codes))
}

/// What an examined group is made of.
pub(crate) fn prepare_examined(alloc: Global, stack: Stack) -> Result<(Parts, StackChecks), Memory>
    requires { IsSound (stack_tree stack) }
    ensures { IfOk result (λ made. IsExaminable (stack_tree stack) made.0 made.1) }
{
    let drawn = draw(alloc, stack)?;
    let (codes, checks) = examining_codes(alloc, drawn.stack.stack(), &drawn.shapes)?;
    match parts_of(alloc, drawn, Some(codes)) {
        Ok(parts) => Ok((parts, checks)),
        Err(memory) => {
            checks.close();
            Err(memory)
        }
    }
}
