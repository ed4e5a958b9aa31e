//! What the head of a handler uses.

ghost use Rattle.std.specs.Prelude.{◌∷◌, [], option_map};
ghost use Rattle.std.specs.Option.{option_map_or};
ghost use Rattle.layer_ast.specs.View.{expected_tree, popped_tree};
ghost use Rattle.fault_mean.specs.NameFaults.{expected_uses, uses_faults};
ghost use Rattle.fault_mean.specs.Uses.{of_name};
ghost use Rattle.file_names.specs.Found.{Finds};
ghost use Rattle.file_scope.specs.Scope.{scope_of};

use crate::found::Found;
use crate::uses;
use file_scope::Scope;
use layer_ast::{Expected, Popped};

/// Judges the use of the name of a popped header.
#[tactic(auto, using(file_scope::proofs::Finds::finds_none, file_scope::proofs::Finds::finds_both))]
pub fn popped(found: &mut Found, scope: &Scope, popped: &Option<Popped>)
    ensures { Finds found.old
        (uses_faults (scope_of scope.now)
        (option_map_or (λ p. of_name p.name ∷ []) (option_map popped_tree popped.now) [])) found.new }
{
    match popped {
        None => {}
        Some(popped) => uses::name(found, scope, &popped.name),
    }
}

/// Judges the uses in the condition of a handler.
#[tactic(auto, using(file_scope::proofs::Finds::finds_none))]
pub fn expected(found: &mut Found, scope: &Scope, expected: &Expected)
    ensures { Finds found.old (uses_faults (scope_of scope.now) (expected_uses (expected_tree expected.now)))
        found.new }
{
    match expected {
        Expected::Common(condition) => uses::expression(found, scope, condition),
        Expected::Always | Expected::Rare => {}
    }
}
