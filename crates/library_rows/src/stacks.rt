//! Stacks of library layers, worked out by evaluation: their texts are files, and what they mean. Nothing runs here.
ghost use Rattle.std.specs.Prelude.{◌≡◌};
ghost use Rattle.file_mean.specs.Library.{IsFile};
ghost use Rattle.file_mean.specs.Stack.{stack_of};
ghost use Rattle.library_rows.specs.OrderStack as order;
ghost use Rattle.library_rows.specs.WholeStack as whole;
ghost use Rattle.library_rows.specs.HidingStack as hiding;

/// `bottom`, `local` and `total`, which put casts into one order.
pub fn order_stack()
    ensures spelled { IsFile order.text order.file }
    ensures means { stack_of order.file ≡ order.stack }
{}

/// The whole library, one layer upon the other.
pub fn whole_stack()
    ensures { IsFile whole.text whole.file }
{}

/// A layer of the file hides the library's layer of the same name, and a layer of the library that two places name is
/// brought once.
pub fn hiding_stack()
    ensures spelled { IsFile hiding.text hiding.file }
    ensures means { stack_of hiding.file ≡ hiding.stack }
{}
