//! One header that a layer declares, as it is read.

ghost use Rattle.std.specs.Prelude.{◌≡◌, ◌<◌, ◌≤◌, IfSome, length, option_map, slice_index_or};
ghost use Rattle.stack_judge.specs.Answer.{stack_tree};
ghost use Rattle.layer_mean.specs.Headers.{header_of_tag};
ghost use Rattle.layer_mean.specs.Tree.{no_layer};
ghost use Rattle.typed_layer.specs.View.{layer_tree};
ghost use Rattle.packet_full.specs.Form.{form_of};
ghost use Rattle.msg_core.specs.Headers.{most_fields};

use stack_judge::Stack;
use typed_layer::TypedLayer;

/// How many numbers a header has, and whether it closes the chain.
#[derive(Clone, Copy)]
pub struct Form {
    pub fields: u8,
    pub ends: bool,
}

/// The header of a layer that a tag stands for; the header `none` has the tag 0.
fn declared_form(layer: &TypedLayer, tag: u8) -> Option<Form>
    ensures is { result ≡ option_map form_of (header_of_tag (layer_tree layer.now) tag) }
    ensures few { IfSome result (λ form. form.fields ≤ most_fields) }
{
    if tag == 0 {
        return Some(Form {
            fields: 0,
            ends: false,
        })
    }
    let header = layer.headers.get(usize::from(tag) - 1)?;
    Some(Form {
        fields: header.fields,
        ends: header.ends,
    })
}

/// The header of a place's layer that a tag stands for.
pub fn form_at(stack: &Stack, place: u8, tag: u8) -> Option<Form>
    requires { place < length (stack_tree stack.now) }
    ensures is { result ≡
        option_map form_of (header_of_tag (slice_index_or (stack_tree stack.now) place no_layer) tag) }
    ensures few { IfSome result (λ form. form.fields ≤ most_fields) }
{
    declared_form(stack.layer(place), tag)
}
