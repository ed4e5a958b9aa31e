//! Whether a trace of a file does what the stack's own does.

ghost use Rattle.trace_core.specs.Trees.{trace_tree};
ghost use Rattle.pack_judge.specs.Filling.{Agrees};

use crate::error::BypassError;
use layer_mean::Case;
use std::alloc::Global;
use symbol_compare::first_difference;
use trace_core::Trace;

/// Judges the trace of a case of an entry.
pub(crate) fn agree(
    alloc: Global,
    entry: u32,
    case: Case,
    trace: &Trace,
    own: &Trace,
) -> Result<(), BypassError>
    ensures { Agrees entry case (trace_tree trace.now) (trace_tree own.now) result }
{
    match first_difference(alloc, trace, own)? {
        None => Ok(()),
        Some(act) => Err(BypassError::Differs { entry, case, act }),
    }
}
