//! Known headers, as text.

ghost use Rattle.std.specs.Prelude.{◌≡◌, ◌++◌, [], OnOk, slice_get, slice_index_or};
ghost use Rattle.bypass_mean.specs.Text.{atom_text, following, link_text, pushed_text};
ghost use Rattle.stack_judge.specs.Answer.{stack_tree};
ghost use Rattle.layer_mean.specs.Headers.{header_of_tag};
ghost use Rattle.synth_print.specs.Cells.{layer_or_none};
ghost use Rattle.synth_print.specs.Headers.{atom_texts, header_called, header_front, comma_list, more_links};
ghost use Rattle.synth_print.specs.Texts.{chains_in, layers_in, written_in};
ghost use Rattle.trace_core.specs.Links.{IsChain, chain_in, link_tree};
ghost use Rattle.trace_core.specs.Operations.{chained_in};

use crate::atoms::push_atom;
use crate::cells::layer_at;
use crate::numbers::push_core;
use crate::scope::Scope;
use msg_core::Memory;
use report_lines::{Line, push_lead};
use stack_judge::Stack;
use trace_core::{Atoms, Chained, Link};
use typed_layer::TypedLayer;

/// The name of a layer that there may be.
fn push_layer(line: &mut Line, layer: Option<&TypedLayer>) -> Result<(), Memory>
    ensures { OnOk result (line.new ≡ line.old ++ (layer_or_none layer.entry).name) }
{
    match layer {
        Some(layer) => line.text(layer.name.bytes()),
        None => Ok(()),
    }
}

/// The name of a declared header of a layer that there may be.
fn push_declared(line: &mut Line, layer: Option<&TypedLayer>, number: usize) -> Result<(), Memory>
    ensures { OnOk result
        (line.new ≡ line.old ++ header_called (slice_get (layer_or_none layer.entry).headers number)) }
{
    let Some(layer) = layer else { return Ok(()) };
    match layer.headers.get(number) {
        Some(header) => line.text(header.name.bytes()),
        None => Ok(()),
    }
}

/// The name of the header with a tag: `none`, or a declared one.
#[tactic(auto, using(crate::proofs::Chains::declared_after))]
fn push_tag(line: &mut Line, layer: Option<&TypedLayer>, tag: u8) -> Result<(), Memory>
    ensures { OnOk result (line.new ≡ line.old ++ header_called (header_of_tag (layer_or_none layer.entry) tag)) }
{
    if tag > 0 {
        push_declared(line, layer, usize::from(tag) - 1)
    } else {
        line.text(b"none")
    }
}

/// `LAYER.HEADER(`
pub(crate) fn push_front(
    line: &mut Line,
    stack: &Stack,
    place: usize,
    tag: u8,
) -> Result<(), Memory>
    ensures { OnOk result (line.new ≡ line.old ++ header_front (stack_tree stack.now) place tag) }
{
    let layer = layer_at(stack, place);
    push_layer(line, layer)?;
    line.text(b".")?;
    push_tag(line, layer, tag)?;
    line.text(b"(")
}

/// An atom of a list, if there is one.
#[tactic(auto, using(crate::proofs::Joins::atom_there, crate::proofs::Joins::atom_missing))]
fn push_some(line: &mut Line, scope: &Scope<'_>, atoms: &Atoms, k: u32) -> Result<(), Memory>
    ensures { OnOk result (line.new ≡ line.old ++ slice_index_or (atom_texts (written_in scope.now) atoms.now) k []) }
{
    match atoms.get(k) {
        Some(atom) => push_atom(line, scope, atom),
        None => Ok(()),
    }
}

/// Atoms, with commas between.
pub(crate) fn push_atoms(line: &mut Line, scope: &Scope<'_>, atoms: &Atoms) -> Result<(), Memory>
    ensures { OnOk result (line.new ≡ line.old ++ comma_list (atom_texts (written_in scope.now) atoms.now)) }
{
    for k in 0..atoms.len() {
        push_lead(line, b",", k)?;
        push_some(line, scope, atoms, k)?;
    }
    Ok(())
}

/// `LAYER.HEADER(F,F)`
fn push_link(line: &mut Line, scope: &Scope<'_>, link: &Link) -> Result<(), Memory>
    ensures { OnOk result (line.new ≡ line.old
        ++ link_text (layers_in scope.now) (atom_text (written_in scope.now)) (link_tree link.now)) }
{
    push_front(line, scope.stack, usize::from(link.place), link.tag)?;
    push_atoms(line, scope, &link.fields)?;
    line.text(b")")
}

/// The headers of a chain, each with `/` in front.
#[tactic(auto, using(crate::proofs::Chains::rest_read, crate::proofs::Chains::rest_empty))]
fn push_rest(line: &mut Line, scope: &Scope<'_>, chain: u32) -> Result<(), Memory>
    requires { IsChain (chains_in scope.now) chain }
    ensures { OnOk result (line.new ≡ line.old
        ++ more_links (layers_in scope.now) (written_in scope.now) (chain_in (chains_in scope.now) chain)) }
{
    match scope.source.links.front(chain) {
        Some(link) => {
            line.text(b"/")?;
            push_link(line, scope, &link)?;
            push_rest(line, scope, link.rest)
        }
        None => Ok(()),
    }
}

/// Known headers after what they belong to, where there are any.
#[tactic(auto, using(crate::proofs::Chains::after_read, crate::proofs::Chains::after_empty))]
pub(crate) fn push_after(line: &mut Line, scope: &Scope<'_>, chain: u32) -> Result<(), Memory>
    requires { IsChain (chains_in scope.now) chain }
    ensures { OnOk result (line.new ≡ line.old
        ++ following (layers_in scope.now) (written_in scope.now) (chain_in (chains_in scope.now) chain)) }
{
    match scope.source.links.front(chain) {
        Some(link) => {
            line.text(b" ")?;
            push_link(line, scope, &link)?;
            push_rest(line, scope, link.rest)
        }
        None => Ok(()),
    }
}

/// A message with its known headers.
pub(crate) fn push_chained(
    line: &mut Line,
    scope: &Scope<'_>,
    message: Chained,
) -> Result<(), Memory>
    requires { IsChain (chains_in scope.now) message.chain }
    ensures { OnOk result (line.new ≡ line.old
        ++ pushed_text (layers_in scope.now) (written_in scope.now) (chained_in (chains_in scope.now) message)) }
{
    push_core(line, scope, message.core)?;
    push_after(line, scope, message.chain)
}
