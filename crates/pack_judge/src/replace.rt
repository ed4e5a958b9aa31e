//! What is made of a case with a trace of a file.

ghost use Rattle.std.specs.Prelude.{◌≡◌};
ghost use Rattle.bypass_laws.specs.Making.{simplest};
ghost use Rattle.trace_core.specs.Trees.{guarded_tree, trace_tree};
ghost use Rattle.pack_judge.specs.Filling.{Replaces};

use crate::agree::agree;
use crate::error::BypassError;
use crate::joins::joins_no_more;
use layer_mean::Case;
use std::alloc::Global;
use synth::guard;
use trace_core::{Bypass, Trace};

/// Judges the trace of a case of an entry, and puts it in place of the stack's own, if it joins no more.
#[tactic(auto, using(crate::proofs::Replacing::put_in_place, crate::proofs::Replacing::left_out))]
pub(crate) fn replace(
    alloc: Global,
    entry: u32,
    case: Case,
    own: &mut Bypass,
    trace: Trace,
) -> Result<(), BypassError>
    requires { guarded_tree own.old.guarded ≡ simplest (trace_tree own.old.trace) }
    ensures { Replaces entry case (trace_tree trace) (trace_tree own.old.trace) own.new result }
{
    agree(alloc, entry, case, &trace, &own.trace)?;
    if joins_no_more(&trace, &own.trace)? {
        *own = guard(alloc, trace)?;
    }
    Ok(())
}
