//! The headers that handlers take off and emissions put on.

ghost use Rattle.std.specs.Prelude.{◌≡◌, flat_map, length, map, option_map};
ghost use Rattle.layer_ast.specs.View.{argument_tree, arguments_tree, declaration_tree};
ghost use Rattle.fault_mean.specs.ExpressionFaults.{argument_faults};
ghost use Rattle.fault_mean.specs.Forms.{fields_of, labels_of};
ghost use Rattle.fault_mean.specs.Kinds.{a_number};
ghost use Rattle.fault_mean.specs.TypeFaults as spec;
ghost use Rattle.fault_mean.specs.Uses.{arguments_in};
ghost use Rattle.file_expressions.specs.Found.{Finds};
ghost use Rattle.file_types.specs.Counts.{count_of};
ghost use Rattle.file_scope.specs.Scope.{scope_of};

use crate::count::{Count, count_names, is_same_count};
use file_expressions::{Cause, NUMBER, argument, note_unless};
use file_scope::{Found, Scope, declares_header};
use layer_ast::{Argument, Arguments, Declaration, Name};
use layer_words::{At, Word};

/// The number of fields of the header that a declaration declares.
fn declared_fields(d: &Declaration) -> Count
    ensures { count_of result ≡ length (labels_of (declaration_tree d.now)) }
{
    match d {
        Declaration::Header { fields, .. } => count_names(fields),
        _ => Count::Nothing,
    }
}

/// How many fields the header of a word has.
fn fields(scope: &Scope, word: &Word) -> Count
    ensures { count_of result ≡ length (fields_of (scope_of scope.now).layer word.now) }
{
    match scope.declaration(word) {
        None => Count::Nothing,
        Some(d) => declared_fields(d),
    }
}

/// A header as it is named after `with`: the place of what it belongs to, its name, and how many fields stand there.
#[derive(Clone, Copy)]
pub struct With<'a> {
    pub at: At,
    pub name: &'a Name,
    pub count: Count,
}

/// The header that is named after `with`, where one is allowed or not.
#[tactic(auto, using(file_scope::proofs::Parts::three_parts))]
pub fn header(found: &mut Found, scope: &Scope, with: With<'_>, is_allowed: bool)
    ensures { Finds found.old (spec.with_faults (scope_of scope.now).layer with.entry.at with.entry.name.now
        (count_of with.entry.count) is_allowed) found.new }
{
    let word = &with.name.word;
    note_unless(found, declares_header(scope, word), Cause::Kind, with.at);
    let holds = is_same_count(fields(scope, word), with.count);
    note_unless(found, holds, Cause::Arity, with.at);
    note_unless(found, is_allowed, Cause::Direction, with.at);
}

/// Arguments, each of which is to be a number.
#[tactic(auto, using(file_scope::proofs::Finds::finds_none, file_scope::proofs::Finds::part_more))]
fn each_number(found: &mut Found, scope: &Scope, all: &[Argument])
    ensures { Finds found.old (flat_map (argument_faults (scope_of scope.now) a_number) (map argument_tree all.now))
        found.new }
{
    for a in all {
        argument(found, scope, NUMBER, a);
    }
}

/// The fields of a header that is put on.
#[tactic(auto, using(file_scope::proofs::Finds::finds_none, file_scope::proofs::Finds::finds_both))]
pub fn numbers(found: &mut Found, scope: &Scope, fields: &Option<Arguments>)
    ensures { Finds found.old
        (flat_map (argument_faults (scope_of scope.now) a_number) (arguments_in (option_map arguments_tree fields.now)))
        found.new }
{
    match fields {
        None => {}
        Some(fields) => {
            argument(found, scope, NUMBER, &fields.first);
            each_number(found, scope, &fields.rest);
        }
    }
}
