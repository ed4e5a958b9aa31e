//! Laws of members, their steps and worlds, each the contract of a function that does nothing: what they keep and send
//! is chained, what a step sends fits its plans and is spelled by its bytes, and its run ends within the weight of its
//! entry.
#![tactic(auto)]

pub mod samples;

ghost use Rattle.member_laws.specs.Members.{EntersInRange, EventsKeepChains, FirstTasksAreChained, FirstWorldIsChained};
ghost use Rattle.member_laws.specs.Members.{MomentsAreChained, OpenedIsChained, StepsKeepChains};
ghost use Rattle.member_laws.specs.Nodes.{NodesAreChained};
ghost use Rattle.member_laws.specs.Plans.{InputsAreInRange, PlansAreNumbered, WorldsAreChained};
ghost use Rattle.member_laws.specs.Steps.{ChainedLines, ChainedTurns, PacketsFit, StepsEnd, TypedRunsAreBare};
ghost use Rattle.member_laws.specs.Steps.{WiresAreSpelled};
ghost use Rattle.member_laws.specs.Fit.{PredictedPacketsFit, ShortWiresSpell};
ghost use Rattle.member_laws.specs.PlanSamples.{KeptStepIsShort};

/// An input that is not refused enters as a body, a number or a packet in range.
pub fn enters_in_range()
    ensures { EntersInRange }
{}

/// The first task of what entered is chained.
pub fn first_tasks_are_chained()
    ensures { FirstTasksAreChained }
{}

/// A member that has just come into a view is chained.
pub fn opened_is_chained()
    ensures { OpenedIsChained }
{}

/// A step keeps states chained, sends packets that can be spelled, and installs chained members.
pub fn steps_keep_chains()
    ensures { StepsKeepChains }
{}

/// The world in which a run begins is chained.
pub fn first_world_is_chained()
    ensures { FirstWorldIsChained }
{}

/// An event keeps a world chained.
pub fn events_keep_chains()
    ensures { EventsKeepChains }
{}

/// Along a run each world is chained.
pub fn moments_are_chained()
    ensures { MomentsAreChained }
{}

/// Parts that a run of a typed stack reads have no headers.
pub fn typed_runs_are_bare()
    ensures { TypedRunsAreBare }
{}

/// Each packet of a step that is sent short fits the plan under which it is.
pub fn packets_fit()
    ensures { PacketsFit }
{}

/// The bytes of every packet that a step sends spell it.
pub fn wires_are_spelled()
    ensures { WiresAreSpelled }
{}

/// In a stack without cycles, all is known of a turn of a chained line.
pub fn chained_turns()
    ensures { ChainedTurns }
{}

/// In such a stack, all is known of a chained line.
pub fn chained_lines()
    ensures { ChainedLines }
{}

/// The run of a step of an accepted stack ends within the weight of its entry.
pub fn steps_end()
    ensures { StepsEnd }
{}

/// The constants of a typed stack's plans are below 2^32.
pub fn plans_are_numbered()
    ensures { PlansAreNumbered }
{}

/// What a member of a typed stack is given enters in range.
pub fn inputs_are_in_range()
    ensures { InputsAreInRange }
{}

/// Along a run of the world of a typed stack each world is chained.
pub fn worlds_are_chained()
    ensures { WorldsAreChained }
{}

/// The world of a node is chained at each event of its journal.
pub fn nodes_are_chained()
    ensures { NodesAreChained }
{}

/// Each packet of a step that is sent short fits the plan under which it is.
pub fn predicted_packets_fit()
    ensures { PredictedPacketsFit }
{}

/// The bytes that are sent of a packet that can be spelled spell it, short or in full.
pub fn short_wires_spell()
    ensures { ShortWiresSpell }
{}

/// A cast over four layers whose packet is sent short, by evaluation.
#[tactic(auto, unfolding(stack_mean::specs::Samples::evaluated))]
pub fn kept_step_is_short()
    ensures { KeptStepIsShort }
{}
