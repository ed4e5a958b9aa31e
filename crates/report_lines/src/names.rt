//! Headers by name, without their numbers.

ghost use Rattle.std.specs.Prelude.{◌≡◌, ◌++◌, OnOk};
ghost use Rattle.stack_judge.specs.Answer.{stack_tree};
ghost use Rattle.run_mean.specs.Text.{header_name, layer_number};
ghost use Rattle.report_lines.specs.Layer.{layer_or_none};
ghost use Rattle.report_lines.specs.Nones.{header_front};

use crate::line::Line;
use msg_core::{Header, Memory};
use stack_judge::Stack;
use typed_layer::TypedLayer;

/// The layer at a place, if there is one.
fn layer_at(stack: &Stack, place: u8) -> Option<&TypedLayer>
    ensures { layer_or_none result ≡ layer_number (stack_tree stack.now) place }
{
    if place < stack.places() {
        Some(stack.layer(place))
    } else {
        None
    }
}

/// The name of the layer at a place.
#[inline(always)]
fn push_layer_name(line: &mut Line, layer: Option<&TypedLayer>) -> Result<(), Memory>
    ensures { OnOk result (line.new ≡ line.old ++ (layer_or_none layer.entry).name) }
{
    match layer {
        Some(layer) => line.text(layer.name.bytes()),
        None => Ok(()),
    }
}

/// The name of the header with a tag: `none`, or a declared one.
fn push_header_name(line: &mut Line, layer: Option<&TypedLayer>, tag: u8) -> Result<(), Memory>
    ensures { OnOk result (line.new ≡ line.old ++ header_name (layer_or_none layer.entry) tag) }
{
    if tag == 0 {
        return line.text(b"none");
    }
    let Some(layer) = layer else { return Ok(()) };
    let number = usize::from(tag) - 1;
    if number < layer.headers.len() {
        line.text(layer.headers[number].name.bytes())
    } else {
        Ok(())
    }
}

/// `LAYER.HEADER(`, spelled out.
pub(crate) fn push_front(line: &mut Line, stack: &Stack, header: &Header) -> Result<(), Memory>
    ensures { OnOk result (line.new ≡ line.old ++ header_front (stack_tree stack.now) header.now) }
{
    let layer = layer_at(stack, header.layer);
    push_layer_name(line, layer)?;
    line.text(b".")?;
    push_header_name(line, layer, header.tag)?;
    line.text(b"(")
}
