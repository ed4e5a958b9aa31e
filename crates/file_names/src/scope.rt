//! Locals that become visible.

ghost use Rattle.std.specs.Prelude.{◌∷◌, [], OnOk};
ghost use Rattle.file_names.specs.Scope.{Declares};
ghost use Rattle.file_scope.specs.Scope.{locals_of, scope_of};

use crate::found::{Cause, Found, note_unless};
pub use file_scope::{Local, Scope};
use layer_ast::Name;
use layer_words::Sort;
use std::alloc::AllocError;

/// Makes a local of this name visible, which must not be visible already.
#[tactic(auto, using(crate::proofs::Twice::declares_one))]
pub fn bring(found: &mut Found, scope: &mut Scope, name: Name, sort: Sort) -> Result<(), AllocError>
    ensures { OnOk result
        (Declares (scope_of scope.old) found.old (record { name = name; sort = sort } ∷ []) found.new
        (scope_of scope.new)) }
{
    let again = scope.is_visible(&name.word);
    note_unless(found, !again, Cause::Twice, name.at);
    scope.push(Local { name, sort })?;
    Ok(())
}

/// Makes locals visible, none of which may be visible already.
#[tactic(auto, using(file_scope::proofs::Finds::finds_none, crate::proofs::Twice::declares_next))]
pub fn declare(found: &mut Found, scope: &mut Scope, locals: &[Local]) -> Result<(), AllocError>
    ensures { OnOk result
        (Declares (scope_of scope.old) found.old (locals_of locals.now) found.new (scope_of scope.new)) }
{
    for local in locals {
        let again = scope.is_visible(&local.name.word);
        note_unless(found, !again, Cause::Twice, local.name.at);
        scope.push(*local)?;
    }
    Ok(())
}
