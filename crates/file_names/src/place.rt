//! The faults of places.

ghost use Rattle.std.specs.Prelude.{◌≡◌, ◌∷◌, [], flat_map, map, OnOk};
ghost use Rattle.layer_ast.specs.View.{given_tree, place_tree};
ghost use Rattle.fault_mean.specs.Declared.{is_param as is_param_tree};
ghost use Rattle.fault_mean.specs.Earliest.{unless};
ghost use Rattle.fault_mean.specs.Faults as fault;
ghost use Rattle.fault_mean.specs.Forms.{declared_as};
ghost use Rattle.fault_mean.specs.Limits.{is_within_at, sizes_in};
ghost use Rattle.fault_mean.specs.NameFaults.{place_faults_in, twice_among};
ghost use Rattle.file_scope.specs.Scope.{scope_of};
ghost use Rattle.file_names.specs.Found.{Finds};
ghost use Rattle.file_names.specs.Gathered.{sizes_of};
ghost use Rattle.file_names.specs.Places.{given_faults};

use crate::found::{Cause, Found, is_past, note_unless};
use crate::names::twice;
use crate::sizes::Sizes;
use crate::tables::given_names;
use crate::value::{is_param, sizes_within};
use file_scope::Scope;
use layer_ast::{Given, Place};
use std::alloc::{AllocError, Global};

/// Judges the params that a place gives, none of which may be there twice.
fn each_once(alloc: Global, found: &mut Found, given: &[Given]) -> Result<(), AllocError>
    ensures { OnOk result (Finds found.old (twice_among [] (map (λ g. g.name) (map given_tree given.now))) found.new) }
{
    let names = given_names(alloc, given)?;
    twice(alloc, found, &names)?;
    Ok(())
}

/// Judges the names that a place gives values, which must be params of its layer.
#[tactic(auto, using(file_scope::proofs::Finds::finds_none, file_scope::proofs::Finds::part_more))]
fn are_params(found: &mut Found, scope: &Scope, given: &[Given])
    ensures { Finds found.old (flat_map (given_faults (scope_of scope.now).layer) (map given_tree given.now))
        found.new }
{
    for one in given {
        let holds = is_param(scope, &one.name.word);
        note_unless(found, holds, Cause::Unknown, one.name.at);
    }
}

/// Judges the sizes that are params, which must be within their limits. They aren't looked at where a fault that was
/// found comes before this place.
fn sizes(
    alloc: Global,
    found: &mut Found,
    scope: &Scope,
    place: &Place,
    sizes: &Sizes,
) -> Result<(), AllocError>
    requires { sizes.now ≡ sizes_of (scope_of scope.now).layer }
    ensures { OnOk result
        (Finds found.old (flat_map
        (λ l. unless (is_within_at (scope_of scope.now).layer (place_tree place.now) l.size l.most)
        (fault.too_many place.now.name.at)) (sizes_in (scope_of scope.now).layer)) found.new) }
{
    if !is_past(found, Cause::TooMany, place.name.at) {
        let holds = sizes_within(alloc, scope, place, sizes)?;
        note_unless(found, holds, Cause::TooMany, place.name.at);
    }
    Ok(())
}

/// Judges a place, in the scope of the own names of the layer that it names.
#[tactic(auto, using(file_scope::proofs::Finds::finds_both))]
pub fn place_in(
    alloc: Global,
    found: &mut Found,
    scope: &Scope,
    place: &Place,
    of_layer: &Sizes,
) -> Result<(), AllocError>
    requires { of_layer.now ≡ sizes_of (scope_of scope.now).layer }
    ensures { OnOk result
        (Finds found.old (place_faults_in (place_tree place.now) (scope_of scope.now).layer) found.new) }
{
    each_once(alloc, found, &place.given)?;
    are_params(found, scope, &place.given);
    sizes(alloc, found, scope, place, of_layer)?;
    Ok(())
}
