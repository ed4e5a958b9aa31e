//! The first fault of a file's names.

ghost use Rattle.std.specs.Prelude.{◌≡◌, ◌++◌, [], map, option_map, OnOk, IfOk};
ghost use Rattle.layer_ast.specs.View.{file_tree, layer_tree, place_tree};
ghost use Rattle.fault_mean.specs.Faults.{name_fault_at};
ghost use Rattle.fault_mean.specs.NameFaults.{layer_name_faults, name_fault, name_faults, too_many_of, twice_among};
ghost use Rattle.fault_mean.specs.Places.{faults_of_layers};
ghost use Rattle.file_names.specs.Found.{Finds, shown_name_fault};
ghost use Rattle.file_names.specs.Tables.{IsTables};
ghost use Rattle.fault_mean.specs.Limits.{most_layers};
ghost use Rattle.msg_core.specs.Headers.{most_places};

use crate::found::Found;
use crate::judged::judge;
use crate::names::{too_many, twice};
use crate::places::{calls, places};
use crate::tables::{Tables, layer_names, place_names};
use file_scope::Fault;
use layer_ast::{File, Layer, Place};
use std::alloc::{AllocError, Global};

/// The most layers of a file.
const MOST_LAYERS: usize = 64;

/// The most places of a file.
const MOST_PLACES: usize = 24;

/// Judges the names of layers: none may be there twice, and there may be `MOST_LAYERS` of them.
#[tactic(auto, using(file_scope::proofs::Finds::finds_both))]
fn names(alloc: Global, found: &mut Found, layers: &[Layer]) -> Result<(), AllocError>
    ensures { OnOk result
        (Finds found.old (twice_among [] (map (λ layer. layer.name) (map layer_tree layers.now)) ++
        too_many_of most_layers (map (λ layer. layer.name) (map layer_tree layers.now))) found.new) }
{
    let names = layer_names(alloc, layers)?;
    twice(alloc, found, &names)?;
    too_many(found, MOST_LAYERS, &names);
    Ok(())
}

/// Judges the number of places, of which there may be `MOST_PLACES`.
fn few(alloc: Global, found: &mut Found, places: &[Place]) -> Result<(), AllocError>
    ensures { OnOk result
        (Finds found.old (too_many_of most_places (map (λ place. place.name) (map place_tree places.now))) found.new) }
{
    let names = place_names(alloc, places)?;
    too_many(found, MOST_PLACES, &names);
    Ok(())
}

/// Judges a file, with the tables of its layers.
fn all(alloc: Global, found: &mut Found, file: &File, tables: &Tables) -> Result<(), AllocError>
    requires { IsTables tables.now (file_tree file.now) }
    ensures { OnOk result (Finds found.old (name_faults (file_tree file.now)) found.new) }
{
    names(alloc, found, &file.layers)?;
    let judged = judge(alloc, found, file, tables)?;
    calls(found, &judged, &file.places);
    few(alloc, found, &file.places)?;
    places(alloc, found, &judged, &file.places)?;
    Ok(())
}

/// The first fault of a file's names, with the tables of its layers.
#[tactic(auto, using(crate::proofs::Files::first_named))]
pub fn first_fault(alloc: Global, file: &File, tables: &Tables) -> Result<Option<Fault>, AllocError>
    requires { IsTables tables.now (file_tree file.now) }
    ensures { IfOk result (λ first. option_map shown_name_fault first ≡ name_fault (file_tree file.now)) }
{
    let mut found = Found::new();
    all(alloc, &mut found, file, tables)?;
    Ok(found.first)
}
