//! Why an entry has no shape.

ghost use Rattle.std.specs.Prelude.{◌≡◌};
ghost use Rattle.shape_core.specs.declared.error.NoShape.TheVariants.{Memory};

use std::alloc::{AllocError, AllocFailed};
use thiserror::Error;

/// Why an entry has no shape in a case. Places are counted from 0.
#[derive(Debug, Drop, Error)]
pub enum NoShape {
    /// A loop stands on the predicted way of the layer at a place.
    #[error("a loop at place {0}")]
    Loop(u8),
    /// The layer at a place has a rare handler for an event, or none for a message that isn't passed on.
    #[error("a rare handler at place {0}")]
    Rare(u8),
    /// The layer at a place sends a message whose headers aren't known, since it was stored.
    #[error("a stored message at place {0}")]
    Stored(u8),
    /// There are too many visits.
    #[error("too many visits")]
    Long,
    /// The first case meets no condition with two predicted ways, so that the second is the same.
    #[error("the same as the first case")]
    Same,
    #[error("no memory")]
    Memory,
}

impl From<AllocError> for NoShape {
    ghost from_gives = { λ _ e. e ≡ Memory };

    fn from(_: AllocError) -> NoShape {
        NoShape::Memory
    }
}

impl<T: Drop> From<AllocFailed<T>> for NoShape {
    ghost from_gives = { λ _ e. e ≡ Memory };

    fn from(_: AllocFailed<T>) -> NoShape {
        NoShape::Memory
    }
}
