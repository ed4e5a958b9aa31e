//! Small stacks, worked out by evaluation: the functions here are empty.
#![tactic(auto, unfolding(crate::specs::Samples::evaluated))]

ghost use Rattle.stack_mean.specs.Cases.{AllCounts, ConstantFields, HugeWeight, PartsAndStored, UnreachedCycles};
ghost use Rattle.stack_mean.specs.Cases.{Unhandled};
ghost use Rattle.stack_mean.specs.Samples.{
  CounterLengths,
  FanWeights,
  FourFans,
  KeptPlans,
  KeptShape,
  LongShapes,
  MessageRows,
  MissingHandlers,
  NestedJoins,
  NotDrawn,
  OrderedAccepted,
  OrderedPlans,
  OrderedShape,
  ReturnedHeaders,
  TwoEchoes,
};
ghost use Rattle.stack_mean.specs.TwoCases.{FailedCases, FlipPlans, FlipShapes};

/// Casts that are sent back and back lie on a cycle.
pub fn two_echoes()
    ensures { TwoEchoes }
{}

/// The weights of one to four layers that send sixteen casts for one.
pub fn fan_weights()
    ensures { FanWeights }
{}

/// Four such layers are refused, three are accepted.
pub fn four_fans()
    ensures { FourFans }
{}

/// Joins in nested loops.
pub fn nested_joins()
    ensures { NestedJoins }
{}

/// The headers of what comes back from below.
pub fn returned_headers()
    ensures { ReturnedHeaders }
{}

/// How many messages a member keeps.
pub fn message_rows()
    ensures { MessageRows }
{}

/// Entries without a shape.
pub fn not_drawn()
    ensures { NotDrawn }
{}

/// The longest shape, and one that is too long.
pub fn long_shapes()
    ensures { LongShapes }
{}

/// A stack that orders casts, drawn.
pub fn ordered_shape()
    ensures { OrderedShape }
{}

/// A stack that orders and keeps casts, drawn.
pub fn kept_shape()
    ensures { KeptShape }
{}

/// Both stacks are accepted.
pub fn ordered_accepted()
    ensures { OrderedAccepted }
{}

/// The plans of the first.
pub fn ordered_plans()
    ensures { OrderedPlans }
{}

/// The plans of the second.
pub fn kept_plans()
    ensures { KeptPlans }
{}

/// The lengths of a counter's shapes.
pub fn counter_lengths()
    ensures { CounterLengths }
{}

/// A missing handler, in each of its cases.
pub fn missing_handlers()
    ensures { MissingHandlers }
{}

/// Cycles of events that no run begins with.
pub fn unreached_cycles()
    ensures { UnreachedCycles }
{}

/// A weight above 32 bits.
pub fn huge_weight()
    ensures { HugeWeight }
{}

/// Rare handlers and conditions of common cases.
pub fn all_counts()
    ensures { AllCounts }
{}

/// Header fields that are constant, and that are not.
pub fn constant_fields()
    ensures { ConstantFields }
{}

/// Packets for which the lowest layer has no handler.
pub fn unhandled()
    ensures { Unhandled }
{}

/// Parts, and messages that were stored.
pub fn parts_and_stored()
    ensures { PartsAndStored }
{}

/// A layer with two common cases.
pub fn flip_shapes()
    ensures { FlipShapes }
{}

/// Its plans, in the order of the cases.
pub fn flip_plans()
    ensures { FlipPlans }
{}

/// Cases that can't be drawn.
pub fn failed_cases()
    ensures { FailedCases }
{}
