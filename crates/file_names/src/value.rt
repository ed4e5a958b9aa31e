//! The values of params at a place, and whether sizes are within their limits there.

ghost use Rattle.std.specs.Prelude.{◌≡◌, true, map, option_map, IfOk};
ghost use Rattle.std.specs.List.{list_all};
ghost use Rattle.std.specs.Option.{option_map_or};
ghost use Rattle.layer_ast.specs.View.{declaration_tree, given_tree, place_tree};
ghost use Rattle.fault_mean.specs.Declared.{is_param as is_param_tree};
ghost use Rattle.fault_mean.specs.Forms.{declared_as};
ghost use Rattle.fault_mean.specs.Limits.{is_within_at, sizes_in, is_within as within};
ghost use Rattle.fault_mean.specs.Places as spec;
ghost use Rattle.file_scope.specs.Scope.{scope_of};
ghost use Rattle.file_names.specs.Gathered.{sizes_of};

use crate::limits::{LARGEST_CAPACITY, LONGEST_LOOP, is_within};
use crate::sizes::Sizes;
use crate::tables::given_words;
use file_scope::{Scope, Words};
use layer_ast::{Declaration, Given, Place};
use layer_words::Word;
use std::alloc::{AllocError, Global};

/// The value that a declaration declares for a param.
fn declared_value(declaration: &Declaration) -> Option<u32>
    ensures { result ≡ spec.declared_value (declaration_tree declaration.now) }
{
    match declaration {
        Declaration::Param { value, .. } => Some(*value),
        _ => None,
    }
}

/// Whether a word is a param.
pub fn is_param(scope: &Scope, word: &Word) -> bool
    ensures { result ≡ declared_as is_param_tree (scope_of scope.now).layer word.now }
{
    match scope.declaration(word) {
        None => false,
        Some(declaration) => matches!(declaration, Declaration::Param { .. }),
    }
}

/// The value that is given to a param; a table tells where each is given first.
#[tactic(auto, using(crate::proofs::Rules::of_given_value))]
fn given_value(given: &[Given], names: &Words, word: &Word) -> Option<u32>
    requires { names.now ≡ map (λ g. g.name.word) (map given_tree given.now) }
    ensures { result ≡ spec.given_value (map given_tree given.now) word.now }
{
    match names.position(word) {
        None => None,
        Some(k) => Some(given[k].value),
    }
}

/// The value of a param, if a word is one: the given one, or else the declared one.
fn value_at(scope: &Scope, given: &[Given], names: &Words, word: &Word) -> Option<u32>
    requires { names.now ≡ map (λ g. g.name.word) (map given_tree given.now) }
    ensures { result ≡ spec.param_value (scope_of scope.now).layer (map given_tree given.now) word.now }
{
    match scope.declaration(word) {
        None => None,
        Some(declaration) => match declared_value(declaration) {
            None => None,
            Some(value) => Some(given_value(given, names, word).unwrap_or(value)),
        },
    }
}

/// Whether a size is within its limit, if it is a param.
fn is_size_within(scope: &Scope, given: &[Given], names: &Words, most: u32, word: &Word) -> bool
    requires { names.now ≡ map (λ g. g.name.word) (map given_tree given.now) }
    ensures { result ≡ option_map_or (within most)
        (spec.param_value (scope_of scope.now).layer (map given_tree given.now) word.now) true }
{
    match value_at(scope, given, names, word) {
        None => true,
        Some(value) => is_within(most, value),
    }
}

/// Whether all of these sizes are within a limit, as far as they are params.
#[tactic(auto, using(crate::proofs::Lookups::all_more, crate::proofs::Lookups::one_fails))]
fn all_within(scope: &Scope, given: &[Given], names: &Words, most: u32, words: &[Word]) -> bool
    requires { names.now ≡ map (λ g. g.name.word) (map given_tree given.now) }
    ensures { result ≡ list_all
        (λ w. option_map_or (within most) (spec.param_value (scope_of scope.now).layer (map given_tree given.now) w)
        true) words.now }
{
    for word in words {
        if !is_size_within(scope, given, names, most, word) {
            return false;
        }
    }
    true
}

/// Whether all sizes of a layer that are params are within their limits at a place; a table tells what the place gives.
fn are_within(scope: &Scope, place: &Place, names: &Words, sizes: &Sizes) -> bool
    requires names { names.now ≡ map (λ g. g.name.word) (place_tree place.now).given }
    requires sizes { sizes.now ≡ sizes_of (scope_of scope.now).layer }
    ensures { result ≡ list_all (λ l. is_within_at (scope_of scope.now).layer (place_tree place.now) l.size l.most)
        (sizes_in (scope_of scope.now).layer) }
{
    let given = place.given.as_slice();
    if !all_within(
        scope,
        given,
        names,
        LARGEST_CAPACITY,
        sizes.capacities.list(),
    ) {
        return false;
    }
    all_within(scope, given, names, LONGEST_LOOP, sizes.maxima.list())
}

/// Whether all sizes of a layer that are params are within their limits at a place.
pub fn sizes_within(
    alloc: Global,
    scope: &Scope,
    place: &Place,
    sizes: &Sizes,
) -> Result<bool, AllocError>
    requires { sizes.now ≡ sizes_of (scope_of scope.now).layer }
    ensures { IfOk result
        (λ holds. holds ≡ list_all (λ l. is_within_at (scope_of scope.now).layer (place_tree place.now) l.size l.most)
        (sizes_in (scope_of scope.now).layer)) }
{
    let names = given_words(alloc, &place.given)?;
    Ok(are_within(scope, place, &names, sizes))
}
