//! The layers that a file means, if its types are not at fault.

ghost use Rattle.layer_ast.specs.Spells.{HasPlace};
ghost use Rattle.file_names.specs.Answer.{resolved_tree};
ghost use Rattle.file_types.specs.Answer.{Checks};

use crate::answer::judge;
use crate::error::TypeError;
use file_lower::numbered;
use file_names::Resolved;
use std::alloc::Global;
use typed_layer::Typed;

/// The layers at the places of a file whose names are resolved, as members run them, if no type is at fault; else the
/// first fault of the file's types in the order of the text. The file's memory is given back, so a program may judge as
/// many files as it likes.
pub fn check(alloc: Global, resolved: Resolved) -> Result<Typed, TypeError>
    requires { HasPlace (resolved_tree resolved) }
    ensures { Checks (resolved_tree resolved) result }
{
    judge(alloc, &resolved)?;
    let typed = numbered(alloc, resolved.file())?;
    Ok(typed)
}
