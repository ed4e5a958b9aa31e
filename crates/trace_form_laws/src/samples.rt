//! The counts at a small stack, by evaluation.
#![tactic(auto, unfolding(trace_mean::specs::Fuse::made_trace, layer_words::specs::Spelling::kinds))]

ghost use Rattle.trace_form_laws.specs.Samples.{JoinsAreMet};

/// A trace joins as often as is counted of its entry.
pub fn joins_are_met()
    ensures { JoinsAreMet }
{}
