//! What a node is to do, and how far it is.

ghost use Rattle.packet_mean.specs.ChainedState.{IsNumber};

use report_lines::NamedStack;
use script_mean::NodePlan;
use stack_shapes::Plans;

/// The stack that a node runs, with the plans of its packets; the plan of its group, its own members by ascending id,
/// and how many turns it makes.
#[derive(Clone, Copy)]
pub struct Course<'a> {
    pub stack: &'a NamedStack,
    pub plans: &'a Plans,
    pub plan: &'a NodePlan,
    pub me: &'a [u8],
    pub turns: u32,
}

/// The number of the turn, how many failed receives may yet be borne, and which line of the plan comes next.
#[derive(Clone, Copy)]
pub struct Progress {
    pub turn: u32,
    pub patience: u32,
    pub next: usize,
}

/// A number of a plan, or of a turn, has 32 bits.
pub(crate) fn law_number_fits(number: u32)
    ensures { IsNumber number }
{}
