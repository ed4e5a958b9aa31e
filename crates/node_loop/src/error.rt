//! Why a node ended before its last turn.

ghost use Rattle.std.specs.Prelude.{◌≡◌};
ghost use Rattle.node_loop.specs.Causes.{unlinked, unwritten};
ghost use Rattle.node_loop.specs.declared.error.NodeError.TheVariants as node_error;

use msg_core::Memory;
use outside::{LinkError, SinkError};
use thiserror::Error;

/// Why a node ended before its last turn.
#[derive(Clone, Copy, Debug, PartialEq, Eq, Error)]
pub enum NodeError {
    /// A member couldn't listen, or more receives failed than are borne.
    #[error("the network failed")]
    Link,
    /// A put failed.
    #[error("a put failed")]
    Write,
    /// Memory ran out.
    #[error("no memory")]
    Memory,
}

impl From<SinkError> for NodeError {
    ghost from_gives = { λ cause end. end ≡ unwritten cause };

    fn from(cause: SinkError) -> NodeError {
        match cause {
            SinkError::Failed => NodeError::Write,
            SinkError::Memory => NodeError::Memory,
        }
    }
}

impl From<LinkError> for NodeError {
    ghost from_gives = { λ cause end. end ≡ unlinked cause };

    fn from(cause: LinkError) -> NodeError {
        match cause {
            LinkError::Failed => NodeError::Link,
            LinkError::Memory => NodeError::Memory,
        }
    }
}

impl From<Memory> for NodeError {
    ghost from_gives = { λ _ end. end ≡ node_error.Memory };

    fn from(_: Memory) -> NodeError {
        NodeError::Memory
    }
}
