//! The types of arguments.

ghost use Rattle.std.specs.Prelude.{◌≡◌, ◌++◌};
ghost use Rattle.layer_ast.specs.View.{argument_tree, built_tree, expression_tree};
ghost use Rattle.layer_ast.specs.Tree as tree;
ghost use Rattle.layer_words.specs.declared.sorts.Sort.TheVariants.{Int};
ghost use Rattle.fault_mean.specs.Earliest.{unless};
ghost use Rattle.fault_mean.specs.ExpressionFaults as spec;
ghost use Rattle.fault_mean.specs.Faults as fault;
ghost use Rattle.fault_mean.specs.Kinds as kinds;
ghost use Rattle.fault_mean.specs.Sorts as sorts;
ghost use Rattle.file_expressions.specs.Found.{Finds};
ghost use Rattle.file_expressions.specs.Wanted.{sorts_of};
ghost use Rattle.file_scope.specs.Scope.{scope_of};

use crate::expressions::{built, expression};
use crate::found::{Cause, note_unless};
use crate::places::{built_at, expression_at};
use crate::sorts::{built_sort, name_sort};
use crate::wanted::{Wanted, allows, may_be, must_be};
use file_scope::{Found, Scope};
use layer_ast::{Argument, Built, Expression};
use layer_words::Sort;

/// An argument that is a number, but not the name of one.
#[tactic(auto, using(file_scope::proofs::Finds::finds_both))]
fn number(found: &mut Found, scope: &Scope, wanted: Wanted, e: &Expression)
    ensures { Finds found.old
        (unless (kinds.allows (sorts_of wanted) Int) (fault.kind (sorts.expression_at (expression_tree e.now))) ++
        spec.number_faults (scope_of scope.now) (expression_tree e.now)) found.new }
{
    note_unless(
        found,
        allows(wanted, Sort::Int),
        Cause::Kind,
        expression_at(e),
    );
    expression(found, scope, e);
}

/// An argument that is an expression.
fn value(found: &mut Found, scope: &Scope, wanted: Wanted, e: &Expression)
    ensures { Finds found.old
        (spec.argument_faults (scope_of scope.now) (sorts_of wanted) (tree.value (expression_tree e.now))) found.new }
{
    match e {
        Expression::Named { name, index } => match index {
            None => {
                let sort = name_sort(scope, &name.word);
                note_unless(found, must_be(wanted, sort), Cause::Kind, name.at);
            }
            Some(_) => number(found, scope, wanted, e),
        },
        _ => number(found, scope, wanted, e),
    }
}

/// An argument that is a message and no bare name.
#[tactic(auto, using(file_scope::proofs::Finds::finds_both))]
fn content(found: &mut Found, scope: &Scope, wanted: Wanted, b: &Built)
    ensures { Finds found.old
        (spec.argument_faults (scope_of scope.now) (sorts_of wanted) (tree.content (built_tree b.now))) found.new }
{
    let holds = may_be(wanted, built_sort(scope, b));
    note_unless(found, holds, Cause::Kind, built_at(b));
    built(found, scope, b);
}

/// An argument, which is to be of a wanted sort.
pub fn argument(found: &mut Found, scope: &Scope, wanted: Wanted, a: &Argument)
    ensures { Finds found.old (spec.argument_faults (scope_of scope.now) (sorts_of wanted) (argument_tree a.now))
        found.new }
{
    match a {
        Argument::Value(e) => value(found, scope, wanted, e),
        Argument::Content(b) => content(found, scope, wanted, b),
    }
}
