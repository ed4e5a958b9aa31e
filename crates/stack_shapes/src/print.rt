//! What packets of one kind with one chain of tags have in common, in a byte.

ghost use Rattle.std.specs.Prelude.{◌≡◌};
ghost use Rattle.stack_shapes.specs.Prints.{first_print, plan_print, print_with};
ghost use Rattle.stack_shapes.specs.Lists.{plan_tree};

use crate::types::Plan;
use layer_words::Kind;

/// A byte that all packets of one kind with one chain of tags have in common; few others have it.
#[derive(Clone, Copy, Debug, PartialEq, Eq)]
pub struct Print {
    pub byte: u8,
}

impl Print {
    /// The print of a kind, without tags.
    pub fn of(kind: Kind) -> Print
        ensures { result.byte ≡ first_print kind }
    {
        let byte = match kind {
            Kind::Cast => 0,
            _ => 1,
        };
        Print { byte }
    }

    /// The print with one more tag.
    pub fn with(self, tag: u8) -> Print
        ensures { result.byte ≡ print_with self.byte tag }
    {
        Print {
            byte: self.byte.wrapping_mul(31).wrapping_add(tag),
        }
    }
}

/// The print of a plan's packets.
pub(crate) fn print_of(plan: &Plan) -> Print
    ensures { result.byte ≡ plan_print (plan_tree plan.now) }
{
    let mut print = Print::of(plan.kind);
    for tag in plan.tags.as_slice() {
        print = print.with(*tag);
    }
    print
}
