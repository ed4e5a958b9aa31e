//! The shapes of an entry as they are kept.

ghost use Rattle.std.specs.Prelude.{◌≡◌};
ghost use Rattle.shape_core.specs.Cases.{case_trees, drawn_tree};
ghost use Rattle.stack_shapes.specs.Entries.{has_case};
ghost use Rattle.stack_shapes.specs.Shapes.{limited, limited_cases};

use shape_core::{Absent, CaseShapes, Shape};

/// The longest shape that is common.
const LONGEST_SHAPE: u32 = 4096;

/// A shape that isn't too long, or why there is none.
fn limited(drawn: Result<Shape, Absent>) -> Result<Shape, Absent>
    ensures { drawn_tree result ≡ limited (drawn_tree drawn) }
{
    match drawn {
        Ok(shape) => {
            if shape.length <= LONGEST_SHAPE {
                Ok(shape)
            } else {
                Err(Absent::Long)
            }
        }
        Err(reason) => Err(reason),
    }
}

/// The shapes of an entry that aren't too long.
pub(crate) fn limited_cases(shapes: CaseShapes) -> CaseShapes
    ensures { case_trees result ≡ limited_cases (case_trees shapes) }
{
    let CaseShapes { first, second } = shapes;
    CaseShapes {
        first: limited(first),
        second: limited(second),
    }
}

/// Whether there is a case in which an entry has a shape and all went as predicted.
pub(crate) fn has_case(shapes: &CaseShapes, first: bool, second: bool) -> bool
    ensures { result ≡ has_case (case_trees shapes.now) first second }
{
    (first && shapes.first.is_ok()) || (second && shapes.second.is_ok())
}
