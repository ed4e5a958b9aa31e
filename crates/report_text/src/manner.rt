//! How lines are written, and what of.

use packet_mean::Here;
use report_lines::NamedStack;
use script_mean::ScriptEvent;
use stack_shapes::Plans;
use step_outputs::Outputs;
use view_core::Did;

/// How the lines of a run are written: with the names of its stack, and, where wanted, with each event before its lines
/// and with the bytes of each packet after its line, as it is sent with these plans.
#[derive(Clone, Copy)]
pub struct Manner<'a> {
    pub stack: &'a NamedStack,
    pub plans: &'a Plans,
    pub events: bool,
    pub wire: bool,
}

/// What an event of a script yielded: what was done, what came out, and the number of the first packet.
#[derive(Clone, Copy)]
pub struct Outcome<'a> {
    pub event: &'a ScriptEvent,
    pub did: Did,
    pub outputs: &'a Outputs,
    pub first: u64,
}

/// What came out of a member's step, and the number of the first packet.
#[derive(Clone, Copy)]
pub(crate) struct Issue<'a> {
    pub id: u8,
    pub first: u64,
    pub outputs: &'a Outputs,
}

/// The member that an output comes out of: what is around it, its number, and that of the next packet.
#[derive(Clone, Copy)]
pub struct Issuer<'a> {
    pub here: &'a Here,
    pub id: u8,
    pub number: u64,
}
