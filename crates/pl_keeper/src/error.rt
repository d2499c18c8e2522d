//! Why a keeper has no answer.

use pl_io::Failed;
use sqlite::ErrorCode;
use std::alloc::{AllocError, AllocFailed};
use thiserror::Error;

/// Why a keeper's call has no answer. The rows are as they were before the call.
#[derive(Clone, Copy, Debug, PartialEq, Eq, Error)]
pub enum KeepError {
    /// The call failed, and the keeper's count of faults rose in it, or stands at its last value.
    #[error("the keeper failed")]
    Failed,
    /// Memory was wanting. The count of faults is as it was.
    #[error("memory was wanting")]
    Memory,
}

impl From<sqlite::Error> for KeepError {
    ghost use Rattle.std.specs.Prelude.{◌≡◌};
    ghost use Rattle.pl_keeper.specs.Causes.{keep_error};

    ghost from_gives = { λ refused error. error ≡ keep_error refused };

    fn from(error: sqlite::Error) -> KeepError {
        match error {
            sqlite::Error::SqliteFailure(ErrorCode::OutOfMemory) => KeepError::Memory,
            _ => KeepError::Failed,
        }
    }
}

impl From<Failed> for KeepError {
    ghost use Rattle.std.specs.Prelude.{◌≡◌};
    ghost use Rattle.pl_keeper.specs.declared.error.KeepError.TheVariants.{Failed as KeeperFailed};

    ghost from_gives = { λ _ error. error ≡ KeeperFailed };

    fn from(_: Failed) -> KeepError {
        KeepError::Failed
    }
}

impl From<AllocError> for KeepError {
    ghost use Rattle.std.specs.Prelude.{◌≡◌};
    ghost use Rattle.pl_keeper.specs.declared.error.KeepError.TheVariants.{Memory};

    ghost from_gives = { λ _ error. error ≡ Memory };

    fn from(_: AllocError) -> KeepError {
        KeepError::Memory
    }
}

impl<T: Drop> From<AllocFailed<T>> for KeepError {
    ghost use Rattle.std.specs.Prelude.{◌≡◌};
    ghost use Rattle.pl_keeper.specs.declared.error.KeepError.TheVariants.{Memory};

    ghost from_gives = { λ _ error. error ≡ Memory };

    fn from(_: AllocFailed<T>) -> KeepError {
        KeepError::Memory
    }
}
