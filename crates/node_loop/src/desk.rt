//! What a node works with.

ghost use Rattle.std.specs.Prelude.{◌≡◌, length};
ghost use Rattle.outside.specs.declared.links.TheConstants.{LONGEST_DATAGRAM};

use crate::tools::Tools;
use std::alloc::Global;
use step_outputs::Outputs;

/// The outputs of the last event, what lines and datagrams are built in, where a datagram is received, and how many
/// events there were; and where memory is taken from.
#[derive(Drop)]
pub struct NodeDesk {
    pub alloc: Global,
    pub outputs: Outputs,
    pub tools: Tools,
    pub room: Vec<u8>,
    pub events: u64,
    ghost room_size: { length room.items ≡ LONGEST_DATAGRAM },
}
