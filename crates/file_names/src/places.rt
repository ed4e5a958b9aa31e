//! The places of a file.

ghost use Rattle.std.specs.Prelude.{◌≡◌, [], filter_map, flat_map, map, OnOk};
ghost use Rattle.std.specs.Option.{option_map_or};
ghost use Rattle.layer_ast.specs.View.{file_tree, layer_tree, place_tree};
ghost use Rattle.fault_mean.specs.Faults.{name_fault_at};
ghost use Rattle.fault_mean.specs.NameFaults.{layer_name_faults, place_faults, place_faults_in};
ghost use Rattle.fault_mean.specs.Places.{called_at, faults_of_judged};
ghost use Rattle.file_names.specs.Found.{Finds};
ghost use Rattle.file_names.specs.Gathered.{sizes_of};
ghost use Rattle.file_names.specs.Places.{called_faults};

use crate::found::{Cause, Found, note};
use crate::judged::Judged;
use crate::place::place_in;
use crate::sizes::Sizes;
use crate::worded::WordedLayer;
use file_scope::Scope;
use layer_ast::Place;
use std::alloc::{AllocError, Global};

/// Takes into account the faults of the library's layer that a place names, if it names one: they stand at this place.
#[tactic(auto, using(file_scope::proofs::Layers::within_made))]
fn called(found: &mut Found, judged: &Judged, place: &Place)
    ensures { Finds found.old (called_faults (file_tree judged.now.file.now) (place_tree place.now)) found.new }
{
    match judged.written_names.position(&place.name.word) {
        Some(_) => {}
        None => match judged.library_names.position(&place.name.word) {
            None => {}
            Some(k) => found.note_rank(judged.library[k].rank, place.name.at),
        },
    }
}

/// Takes into account the faults of the library's layers, for each place that names one.
#[tactic(auto, using(file_scope::proofs::Finds::finds_none, crate::proofs::Calls::called_more))]
pub fn calls(found: &mut Found, judged: &Judged, places: &[Place])
    ensures { Finds found.old
        (flat_map (faults_of_judged name_fault_at layer_name_faults)
        (filter_map (called_at (file_tree judged.now.file.now)) (map place_tree places.now))) found.new }
{
    for place in places {
        called(found, judged, place);
    }
}

/// Judges a place of this layer.
fn place_at(
    alloc: Global,
    found: &mut Found,
    worded: &WordedLayer<'_>,
    place: &Place,
    sizes: &Sizes,
) -> Result<(), AllocError>
    requires { sizes.now ≡ sizes_of (layer_tree worded.now.layer.now) }
    ensures { OnOk result
        (Finds found.old (place_faults_in (place_tree place.now) (layer_tree worded.now.layer.now)) found.new) }
{
    let scope = Scope::of(alloc, worded.layer, worded.own);
    place_in(alloc, found, &scope, place, sizes)?;
    Ok(())
}

/// Judges a place, whose layer is one of the file, or else of the library.
#[tactic(auto, using(crate::proofs::Rules::of_place))]
fn place(alloc: Global, found: &mut Found, judged: &Judged, place: &Place) -> Result<(), AllocError>
    ensures { OnOk result
        (Finds found.old (place_faults (file_tree judged.now.file.now) (place_tree place.now)) found.new) }
{
    match judged.written_names.position(&place.name.word) {
        Some(k) => {
            let layer = &judged.file.layers[k];
            let own = &judged.tables.layers[k];
            let worded = WordedLayer { layer, own };
            place_at(alloc, found, &worded, place, &judged.written[k])?;
        }
        None => match judged.library_names.position(&place.name.word) {
            Some(k) => {
                let layer = &judged.file.library[k];
                let own = &judged.tables.library[k];
                let called = &judged.library[k];
                let worded = WordedLayer { layer, own };
                place_at(alloc, found, &worded, place, &called.sizes)?;
            }
            None => note(found, Cause::Unknown, place.name.at),
        },
    }
    Ok(())
}

/// Judges the places, one by one.
#[tactic(auto, using(file_scope::proofs::Finds::finds_none, file_scope::proofs::Finds::part_more))]
pub fn places(
    alloc: Global,
    found: &mut Found,
    judged: &Judged,
    all: &[Place],
) -> Result<(), AllocError>
    ensures { OnOk result
        (Finds found.old (flat_map (place_faults (file_tree judged.now.file.now)) (map place_tree all.now)) found.new) }
{
    for one in all {
        place(alloc, found, judged, one)?;
    }
    Ok(())
}
