//! Why a search has no answer.

use crate::hit::Key;
use pl_base::Stop;
use pl_keeper::KeepError;
use std::alloc::AllocError;
use thiserror::Error;

/// Why a search has no answer. Of the captures of the bench that can't be judged to their end, the
/// first by ascending key is told.
#[derive(Debug, Drop, Error)]
pub enum SearchError {
    /// A call of the keeper failed, and its count of faults rose.
    #[error("the keeper failed")]
    Store,
    /// The profile of a capture is refused, for the cause of this number.
    #[error("the profile of a capture is refused")]
    Profile { key: Key, number: u8 },
    /// A capture isn't judged to its end.
    #[error("a capture is refused")]
    Capture { key: Key, stop: Stop },
    /// Memory was wanting.
    #[error("memory was wanting")]
    Memory,
}

impl From<KeepError> for SearchError {
    ghost use Rattle.std.specs.Prelude.{◌≡◌};
    ghost use Rattle.pl_search.specs.Causes.{error_of};

    ghost from_gives = { λ refused error. error ≡ error_of refused };

    fn from(error: KeepError) -> SearchError {
        match error {
            KeepError::Failed => SearchError::Store,
            KeepError::Memory => SearchError::Memory,
        }
    }
}

impl From<AllocError> for SearchError {
    ghost use Rattle.std.specs.Prelude.{◌≡◌};
    ghost use Rattle.pl_search.specs.declared.error.SearchError.TheVariants.{Memory};

    ghost from_gives = { λ _ error. error ≡ Memory };

    fn from(_: AllocError) -> SearchError {
        SearchError::Memory
    }
}
