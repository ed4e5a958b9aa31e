//! The lines of plans, each before those of its entry.

ghost use Rattle.std.specs.Prelude.{◌≡◌, ◌+◌, ◌^◌, ◌<◌, ◌++◌, ◌∷◌, [], OnOk, codes, drop, length, slice_get, take};
ghost use Rattle.std.specs.List.{join_by};
ghost use Rattle.std.specs.Option.{option_map_or};
ghost use Rattle.stack_judge.specs.Answer.{stack_tree};
ghost use Rattle.stack_shapes.specs.Lists.{plan_tree};
ghost use Rattle.synth_print.specs.Cells.{layer_or_none};
ghost use Rattle.synth_print.specs.Entries.{all_headers, more_headers, more_planned, plan_text, field_text};
ghost use Rattle.synth_print.specs.Entries.{planned_header};
ghost use Rattle.trace_mean.specs.Fuse.{fields_of};

use crate::cells::layer_at;
use crate::entries::push_name;
use crate::headers::push_front;
use crate::name::Name;
use crate::words::packet_text;
use msg_core::Memory;
use report_lines::Line;
use stack_judge::Stack;
use stack_shapes::Plan;
use typed_layer::TypedLayer;

/// A field of a plan.
fn push_planned(line: &mut Line, field: Option<u32>) -> Result<(), Memory>
    ensures { OnOk result (line.new ≡ line.old ++ field_text field) }
{
    match field {
        Some(number) => line.number(u64::from(number)),
        None => line.text(b"?"),
    }
}

/// Fields of a plan, each with a comma in front.
fn push_more_planned(line: &mut Line, fields: &[Option<u32>]) -> Result<(), Memory>
    ensures { OnOk result (line.new ≡ line.old ++ more_planned fields.now) }
{
    for field in fields {
        line.text(b",")?;
        push_planned(line, *field)?;
    }
    Ok(())
}

/// Fields of a plan, with commas between.
fn push_all_planned(line: &mut Line, fields: &[Option<u32>]) -> Result<(), Memory>
    ensures { OnOk result (line.new ≡ line.old ++ join_by field_text (codes ",") fields.now) }
{
    match fields {
        [] => Ok(()),
        [first, rest @ ..] => {
            push_planned(line, *first)?;
            push_more_planned(line, rest)
        }
    }
}

/// How many fields a declared header of a layer that there may be has.
fn declared_count(layer: Option<&TypedLayer>, number: usize) -> usize
    ensures { result ≡ option_map_or (λ h. h.fields) (slice_get (layer_or_none layer.entry).headers number) 0 }
{
    let Some(layer) = layer else { return 0 };
    match layer.headers.get(number) {
        Some(header) => usize::from(header.fields),
        None => 0,
    }
}

/// How many fields the header of a layer that there may be with a tag has.
#[tactic(auto, using(crate::proofs::Chains::count_after))]
fn count_at(layer: Option<&TypedLayer>, tag: u8) -> usize
    ensures { result ≡ fields_of (layer_or_none layer.entry) tag }
{
    if tag > 0 {
        declared_count(layer, usize::from(tag) - 1)
    } else {
        0
    }
}

/// The first `count` fields, or all.
#[tactic(auto, using(crate::proofs::Planned::all_first))]
fn first_fields(fields: &[Option<u32>], count: usize) -> &[Option<u32>]
    ensures { result.now ≡ take count fields.now }
{
    if count < fields.len() {
        fields.split_at(count).0
    } else {
        fields
    }
}

/// The fields after the first `count`.
#[tactic(auto, using(crate::proofs::Planned::none_after))]
fn later_fields(fields: &[Option<u32>], count: usize) -> &[Option<u32>]
    ensures { result.now ≡ drop count fields.now }
{
    if count < fields.len() {
        fields.split_at(count).1
    } else {
        &fields[..0]
    }
}

/// `LAYER.HEADER(F,F)`
fn push_planned_header(
    line: &mut Line,
    stack: &Stack,
    place: usize,
    tag: u8,
    fields: &[Option<u32>],
) -> Result<(), Memory>
    ensures { OnOk result (line.new ≡ line.old ++ planned_header (stack_tree stack.now) place tag fields.now) }
{
    push_front(line, stack, place, tag)?;
    push_all_planned(line, fields)?;
    line.text(b")")
}

/// The headers from a place on, each with `/` in front.
fn push_more_headers(
    line: &mut Line,
    stack: &Stack,
    place: usize,
    tags: &[u8],
    fields: &[Option<u32>],
) -> Result<(), Memory>
    requires { place + length tags.now < 2 ^ 64 }
    ensures { OnOk result (line.new ≡ line.old ++ more_headers (stack_tree stack.now) place tags.now fields.now) }
{
    match tags {
        [] => Ok(()),
        [tag, rest @ ..] => {
            let count = count_at(layer_at(stack, place), *tag);
            line.text(b"/")?;
            push_planned_header(line, stack, place, *tag, first_fields(fields, count))?;
            push_more_headers(line, stack, place + 1, rest, later_fields(fields, count))
        }
    }
}

/// All headers of a plan.
fn push_all_headers(
    line: &mut Line,
    stack: &Stack,
    tags: &[u8],
    fields: &[Option<u32>],
) -> Result<(), Memory>
    ensures { OnOk result (line.new ≡ line.old ++ all_headers (stack_tree stack.now) tags.now fields.now) }
{
    match tags {
        [] => Ok(()),
        [tag, rest @ ..] => {
            let count = count_at(layer_at(stack, 0), *tag);
            push_planned_header(line, stack, 0, *tag, first_fields(fields, count))?;
            push_more_headers(line, stack, 1, rest, later_fields(fields, count))
        }
    }
}

/// Builds the line of a plan.
pub(crate) fn build_plan(
    line: &mut Line,
    stack: &Stack,
    number: u64,
    plan: &Plan,
) -> Result<(), Memory>
    ensures { OnOk result (line.new ≡ line.old ++ plan_text (stack_tree stack.now) number (plan_tree plan.now)) }
{
    push_name(line, Name::Plan(number))?;
    line.text(b" ")?;
    line.text(packet_text(plan.kind))?;
    line.text(b" ")?;
    push_all_headers(line, stack, plan.tags.as_slice(), plan.fields.as_slice())?;
    line.text(b"\n")
}
