//! That runs which go as predicted have the shapes of their entries, and what this rests on: the contracts of functions
//! that do nothing.
#![tactic(auto)]

ghost use Rattle.shape_laws.specs.Constants.{ConstantsAreValues};
ghost use Rattle.shape_laws.specs.Law.{PredictedRunsHaveTheShape};
ghost use Rattle.shape_laws.specs.Marks.{LogsTellRuns};
ghost use Rattle.shape_laws.specs.Parts.{RunsWithoutParts};
ghost use Rattle.shape_laws.specs.Samples.{FlipRun, KeptRun, ReturnedPacket, SamplesReadNoParts};
ghost use Rattle.shape_laws.specs.Watch.{WatchesTheFirstCase};

/// A run that begins with an entry's event and goes as predicted throughout has the entry's shape: its visits and
/// outputs have the shape's places, directions, kinds, tags and makers.
pub fn predicted_runs_have_the_shape()
    ensures { PredictedRunsHaveTheShape }
{}

/// Where no predicted way of a stack reads a part, nothing is asked of the parts that its runs read.
pub fn runs_without_parts()
    ensures { RunsWithoutParts }
{}

/// The log of visits, outputs and makers changes nothing of a run.
pub fn logs_tell_runs()
    ensures { LogsTellRuns }
{}

/// Drawing draws the first case also where it watches for conditions with two predicted ways.
pub fn watches_the_first_case()
    ensures { WatchesTheFirstCase }
{}

/// A field that is drawn as constant has that number in every run.
pub fn constants_are_values()
    ensures { ConstantsAreValues }
{}

/// A cast over four layers, played: what its shape says, by evaluation.
#[tactic(auto, unfolding(layer_mean::specs::Visit::step))]
pub fn kept_run()
    ensures { KeptRun }
{}

/// A cast that goes as predicted in the second case alone.
#[tactic(auto, unfolding(layer_mean::specs::Visit::step))]
pub fn flip_run()
    ensures { FlipRun }
{}

/// A packet that is sent back at once: its headers, and of their fields how many there are.
#[tactic(auto, unfolding(stack_mean::specs::Shape::drawn_shape))]
pub fn returned_packet()
    ensures { ReturnedPacket }
{}

/// Layers that read no parts.
pub fn samples_read_no_parts()
    ensures { SamplesReadNoParts }
{}
