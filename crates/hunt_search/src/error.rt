//! Why a search ended.

ghost use Rattle.std.specs.Prelude.{◌≡◌};
ghost use Rattle.hunt_search.specs.declared.error.SearchError.TheVariants as search_error;
ghost use Rattle.hunt_search.specs.Opened.{not_opened};

use group_member::OpenError;
use msg_core::Memory;
use std::alloc::{AllocError, AllocFailed};
use thiserror::Error;

/// Why a search ended.
#[derive(Clone, Copy, Debug, PartialEq, Eq, Error)]
pub enum SearchError {
    /// A member would keep over 8,192 rows with messages.
    #[error("too many rows")]
    TooManyRows,
    /// Memory ran out.
    #[error("no memory")]
    Memory,
}

impl From<AllocError> for SearchError {
    ghost from_gives = { λ _ e. e ≡ search_error.Memory };

    fn from(_: AllocError) -> SearchError {
        SearchError::Memory
    }
}

impl<T: Drop> From<AllocFailed<T>> for SearchError {
    ghost from_gives = { λ _ e. e ≡ search_error.Memory };

    fn from(_: AllocFailed<T>) -> SearchError {
        SearchError::Memory
    }
}

impl From<Memory> for SearchError {
    ghost from_gives = { λ _ e. e ≡ search_error.Memory };

    fn from(_: Memory) -> SearchError {
        SearchError::Memory
    }
}

impl From<OpenError> for SearchError {
    ghost from_gives = { λ cause error. error ≡ not_opened cause };

    fn from(cause: OpenError) -> SearchError {
        match cause {
            OpenError::TooLarge => SearchError::TooManyRows,
            OpenError::Memory => SearchError::Memory,
        }
    }
}
