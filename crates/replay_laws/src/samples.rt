//! The words of the laws on a small stack, worked out by evaluation. Nothing runs here.
ghost use Rattle.replay_laws.specs.Samples.{CounterWorld, GivenTwice};

/// A cast that is given twice: its datagram in both modes, and the decision that the second time misses.
pub fn given_twice()
    ensures { GivenTwice }
{}

/// Two members over the counter's stack, of whom one casts.
pub fn counter_world()
    ensures { CounterWorld }
{}
