//! The types of an emission.

ghost use Rattle.std.specs.Prelude.{◌≡◌, [], ◌==◌, length, map, option_map, option_copied, option_to_list, slice_get};
ghost use Rattle.std.specs.Prelude.{Some, true};
ghost use Rattle.std.specs.Option.{option_map_or};
ghost use Rattle.layer_ast.specs.View.{argument_tree, arguments_tree, pushed_tree};
ghost use Rattle.fault_mean.specs.ExpressionFaults.{arguments_faults};
ghost use Rattle.fault_mean.specs.Kinds.{arguments_of};
ghost use Rattle.fault_mean.specs.TypeFaults as spec;
ghost use Rattle.fault_mean.specs.Uses.{arguments_in};
ghost use Rattle.file_expressions.specs.Found.{Finds};
ghost use Rattle.file_expressions.specs.Wanted.{sorts_of};
ghost use Rattle.file_scope.specs.Scope.{scope_of};

use crate::count::{Count, count_arguments, is_same_count};
use crate::header::{With, header, numbers};
use crate::kinds::{argument_count, carries, pushes, second_wanted, suits};
use file_expressions::{Cause, NUMBER, Wanted, argument, argument_sort, note_unless};
use file_scope::{Found, Scope, declares_end};
use layer_ast::{Argument, Arguments, Pushed};
use layer_words::{At, Dir, Kind, Sort};

/// What an emission sends, and from where: its place in the text, the direction and the kind of its events.
#[derive(Clone, Copy)]
pub struct Sending {
    pub at: At,
    pub direction: Dir,
    pub kind: Kind,
}

/// Whether events of a kind have as many arguments as these.
#[tactic(auto, using(crate::proofs::Counts::trees_count))]
fn has_arity(kind: Kind, arguments: &Arguments) -> bool
    ensures { result ≡ (length (arguments_in (Some (arguments_tree arguments.now))) == length (arguments_of kind)) }
{
    is_same_count(Count::After(arguments.rest.len()), argument_count(kind))
}

/// The second argument, where there is one.
#[tactic(auto, using(crate::proofs::Arguments::second_there, crate::proofs::Arguments::second_missing))]
fn second(arguments: &Arguments) -> Option<&Argument>
    ensures { option_map (λ a. argument_tree a) (option_copied result) ≡
        slice_get (arguments_in (Some (arguments_tree arguments.now))) 1 }
{
    if arguments.rest.len() > 0 {
        Some(&arguments.rest[0])
    } else {
        None
    }
}

/// The argument after the first, if one is wanted there.
#[tactic(auto, using(crate::proofs::Rules::of_after_first))]
fn after_first(found: &mut Found, scope: &Scope, wanted: Option<Wanted>, rest: &[Argument])
    ensures { Finds found.old
        (arguments_faults (scope_of scope.now) (map sorts_of (option_to_list wanted)) (map argument_tree rest.now))
        found.new }
{
    if let Some(wanted) = wanted {
        if rest.len() > 0 {
            argument(found, scope, wanted, &rest[0]);
        }
    }
}

/// The arguments of an event of a kind.
#[tactic(auto, using(crate::proofs::Arguments::event_parts))]
fn event_arguments(found: &mut Found, scope: &Scope, kind: Kind, arguments: &Arguments)
    ensures { Finds found.old
        (arguments_faults (scope_of scope.now) (arguments_of kind) (arguments_in (Some (arguments_tree arguments.now))))
        found.new }
{
    argument(found, scope, NUMBER, &arguments.first);
    after_first(found, scope, second_wanted(kind), &arguments.rest);
}

/// A header that is put on.
#[tactic(auto, using(file_scope::proofs::Finds::finds_both))]
fn put_on(found: &mut Found, scope: &Scope, sending: Sending, p: &Pushed)
    ensures { Finds found.old
        (spec.pushed_faults (scope_of scope.now) sending.at sending.direction sending.kind (pushed_tree p.now))
        found.new }
{
    let is_allowed = pushes(sending.direction) && carries(sending.kind);
    let with = With {
        at: sending.at,
        name: &p.name,
        count: count_arguments(&p.fields),
    };
    header(found, scope, with, is_allowed);
    numbers(found, scope, &p.fields);
}

/// The header that an emission puts on, where it names one.
#[tactic(auto, using(file_scope::proofs::Finds::finds_none))]
fn pushed(found: &mut Found, scope: &Scope, sending: Sending, p: &Option<Pushed>)
    ensures { Finds found.old
        (option_map_or (spec.pushed_faults (scope_of scope.now) sending.at sending.direction sending.kind)
        (option_map pushed_tree p.now) []) found.new }
{
    match p {
        None => {}
        Some(p) => put_on(found, scope, sending, p),
    }
}

/// Whether the header that an emission puts on ends.
fn ends_with(scope: &Scope, p: &Option<Pushed>) -> bool
    ensures { result ≡ spec.ends_with (scope_of scope.now).layer (option_map pushed_tree p.now) }
{
    match p {
        None => false,
        Some(p) => declares_end(scope, &p.name.word),
    }
}

/// The sort of the message of an emission, where it has one and it is known.
fn sent_sort(scope: &Scope, kind: Kind, arguments: &Arguments) -> Option<Sort>
    ensures { result ≡ spec.sent_sort (scope_of scope.now) kind (arguments_in (Some (arguments_tree arguments.now))) }
{
    if !carries(kind) {
        return None;
    }
    match second(arguments) {
        None => None,
        Some(a) => argument_sort(scope, a),
    }
}

/// Whether the header of an emission suits its message.
fn is_suited(scope: &Scope, sending: Sending, arguments: &Arguments, p: &Option<Pushed>) -> bool
    ensures { result ≡ option_map_or
        (spec.suits sending.direction (spec.ends_with (scope_of scope.now).layer (option_map pushed_tree p.now)))
        (spec.sent_sort (scope_of scope.now) sending.kind (arguments_in (Some (arguments_tree arguments.now)))) true }
{
    match sent_sort(scope, sending.kind, arguments) {
        None => true,
        Some(sort) => suits(sending.direction, ends_with(scope, p), sort),
    }
}

/// An emission.
#[tactic(auto, using(file_scope::proofs::Parts::four_parts))]
pub fn emission(
    found: &mut Found,
    scope: &Scope,
    sending: Sending,
    arguments: &Arguments,
    p: &Option<Pushed>,
)
    ensures { Finds found.old
        (spec.emission_faults (scope_of scope.now) sending.at sending.direction sending.kind
        (arguments_in (Some (arguments_tree arguments.now))) (option_map pushed_tree p.now)) found.new }
{
    note_unless(
        found,
        has_arity(sending.kind, arguments),
        Cause::Arity,
        sending.at,
    );
    event_arguments(found, scope, sending.kind, arguments);
    pushed(found, scope, sending, p);
    let holds = is_suited(scope, sending, arguments, p);
    note_unless(found, holds, Cause::Header, sending.at);
}
