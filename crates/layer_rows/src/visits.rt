//! Visits and runs of small layers.
#![tactic(auto, unfolding(layer_mean::specs::Queue::run, layer_mean::specs::Visit::step))]

ghost use Rattle.layer_rows.specs.Counter.{GivenTwice};
ghost use Rattle.layer_rows.specs.Alias.{ThreeCasts};
ghost use Rattle.layer_rows.specs.Keeper.{TwoCasts};
ghost use Rattle.layer_rows.specs.Tower.{SplitCasts};
ghost use Rattle.layer_rows.specs.Fork.{Forks};
ghost use Rattle.layer_rows.specs.Values.{Computes, Cuts, Joins, OutsideArrays, OutsideQueues, Tails};
ghost use Rattle.layer_rows.specs.Missing.{Loops, Unhandled};

/// A packet given twice to the counter layer: the first goes as predicted, the second doesn't.
pub fn given_twice()
    ensures { GivenTwice }
{}

/// Three casts through a layer that writes before it branches.
pub fn three_casts()
    ensures { ThreeCasts }
{}

/// Two casts through a layer whose queue has room for one row.
pub fn two_casts()
    ensures { TwoCasts }
{}

/// Casts through a layer with two common cases.
pub fn forks()
    ensures { Forks }
{}

/// Casts that split: the order of their outputs in two stacks.
pub fn split_casts()
    ensures { SplitCasts }
{}

/// Ranges, tails and joins of messages at their ends.
pub fn parts_end()
    ensures cuts { Cuts }
    ensures tails { Tails }
    ensures joins { Joins }
{}

/// Operators and functions at their ends.
pub fn numbers_end()
    ensures { Computes }
{}

/// Reading and writing outside arrays and queues.
pub fn outside()
    ensures arrays { OutsideArrays }
    ensures queues { OutsideQueues }
{}

/// A layer without a handler for an event.
pub fn unhandled()
    ensures { Unhandled }
{}

/// Loops, to their bound and to their maximum.
pub fn loops()
    ensures { Loops }
{}
