//! What runs of code keep, made and ended.

ghost use Rattle.std.specs.Prelude.{◌≡◌, IfOk, option_map};
ghost use Rattle.std.specs.Rc.{rc_value};
ghost use Rattle.stack_shapes.specs.Trees.{plans_tree};
ghost use Rattle.code_tests.specs.Registers.{IsEmpty};
ghost use Rattle.group_member.specs.Serving.{IsSpare, Serves};

use code_table::Codes;
use code_tests::{Needs, Values};
use packet_short::most_fields;
use stack_shapes::Plans;
use std::alloc::{AllocError, Global};
use std::rc::Rc;

/// What the code of a common step keeps while it runs, which is nothing between two runs; and the fields of a packet
/// that its plan leaves variable, with a place for each field of each plan.
pub struct Scratch {
    pub(crate) values: Values,
    pub(crate) fields: Vec<u32>,
}

/// What runs of these codes keep at most; where there are none, nothing.
fn values_for(alloc: Global, codes: Option<&Rc<Codes>>) -> Result<Values, AllocError>
    ensures { IfOk result (Serves (option_map (λ c. rc_value c.now) codes.entry)) }
{
    match codes {
        Some(codes) => codes.values(alloc),
        None => Values::with_room(alloc, Needs::new()),
    }
}

/// Room for runs of these codes, and for packets of these plans.
pub(crate) fn open_scratch(
    alloc: Global,
    codes: Option<&Rc<Codes>>,
    plans: &Plans,
) -> Result<Scratch, AllocError>
    ensures { IfOk result (IsSpare (option_map (λ c. rc_value c.now) codes.entry) (plans_tree plans.now)) }
{
    let fields = Vec::with_capacity(alloc, most_fields(plans))?;
    let values = values_for(alloc, codes)?;
    Ok(Scratch { values, fields })
}

/// Another handle of the code, if there is some; the code itself isn't copied.
pub(crate) fn share(codes: Option<&Rc<Codes>>) -> Result<Option<Rc<Codes>>, AllocError>
    ensures { IfOk result (λ shared. option_map rc_value shared ≡ option_map (λ c. rc_value c.now) codes.entry) }
{
    match codes {
        Some(codes) => Ok(Some(codes.clone()?)),
        None => Ok(None),
    }
}

/// Ends it.
pub(crate) fn close_scratch(scratch: Scratch)
    requires { IsEmpty scratch.values }
{
    let Scratch { values, fields: _ } = scratch;
    values.close();
}
