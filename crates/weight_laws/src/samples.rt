//! The laws at small stacks, by evaluation: the functions here are empty.
#![tactic(auto, unfolding(stack_mean::specs::Samples::evaluated))]

ghost use Rattle.weight_laws.specs.Samples.{ChainedPacket, CounterRounds, CounterRun, EchoesAreSeen, JoinerVisit};
ghost use Rattle.weight_laws.specs.Samples.{OrderedRun, SamplesAreOrderly, SamplesHaveFewHeaders};

/// The layers of the samples are orderly.
pub fn samples_are_orderly()
    ensures { SamplesAreOrderly }
{}

/// A cast over a counter.
pub fn counter_run()
    ensures { CounterRun }
{}

/// A cast over a stack that orders casts.
pub fn ordered_run()
    ensures { OrderedRun }
{}

/// A cast over a layer that joins in loops.
pub fn joiner_visit()
    ensures { JoinerVisit }
{}

/// A packet is chained.
pub fn chained_packet()
    ensures { ChainedPacket }
{}

/// A cast that goes round between two layers.
pub fn echoes_are_seen()
    ensures { EchoesAreSeen }
{}

/// Weights in rounds.
pub fn counter_rounds()
    ensures { CounterRounds }
{}

/// The layers of the samples have few headers.
pub fn samples_have_few_headers()
    ensures { SamplesHaveFewHeaders }
{}
