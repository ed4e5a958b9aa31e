//! The plan of one packet.

ghost use Rattle.std.specs.Prelude.{◌≡◌, ◌++◌, IfOk, OnOk};
ghost use Rattle.stack_mean.specs.Plans as mean;
ghost use Rattle.shape_core.specs.Sketch.{out_tree};
ghost use Rattle.stack_shapes.specs.Lists.{plan_tree};

use crate::types::Plan;
use layer_words::{Dir, Kind};
use msg_core::Memory;
use shape_core::ShapeOut;
use std::alloc::Global;

/// Puts the fields of a header after others.
fn add_fields(fields: &mut Vec<Option<u32>>, more: &[Option<u32>]) -> Result<(), Memory>
    ensures { OnOk result (fields.new.items ≡ fields.old.items ++ more.now) }
{
    for field in more {
        fields.push(*field)?;
    }
    Ok(())
}

/// The plan of a packet output.
pub fn plan_of(alloc: Global, out: &ShapeOut) -> Result<Plan, Memory>
    ensures { IfOk result (λ plan. plan_tree plan ≡ mean.plan_of (out_tree out.now)) }
{
    let mut tags = Vec::with_capacity(alloc, out.headers.len())?;
    let mut fields = Vec::new(alloc);
    for header in out.headers.as_slice() {
        tags.push(header.tag)?;
        add_fields(&mut fields, header.fields.as_slice())?;
    }
    Ok(Plan {
        kind: out.kind,
        tags,
        fields,
    })
}

/// Whether an output is a packet: a cast or a send at the lower edge.
pub fn is_packet(out: &ShapeOut) -> bool
    ensures { result ≡ mean.is_packet (out_tree out.now) (out_tree out.now).dir }
{
    match out.dir {
        Dir::Up => false,
        Dir::Down => matches!(out.kind, Kind::Cast | Kind::Send),
    }
}
