//! Why the text of a filter is refused.
ghost use Rattle.std.specs.Prelude.{◌≡◌};
ghost use Rattle.pl_filter.specs.declared.error.FilterError.TheVariants.{Memory};

use std::alloc::{AllocError, AllocFailed};
use thiserror::Error;

/// Why the text of a filter is refused. A place is a number of bytes from the start of the text.
#[derive(Clone, Copy, Debug, PartialEq, Eq, Error)]
pub enum FilterError {
    /// At this place begins a token that no filter has there, or the text ends too early.
    #[error("no filter goes on so at byte {0}")]
    Syntax(usize),
    /// At this place stands an opening parenthesis that would be the 33rd one open.
    #[error("the parenthesis at byte {0} would be the 33rd one open")]
    TooDeep(usize),
    /// Memory was wanting.
    #[error("memory was wanting")]
    Memory,
}

impl FilterError {
    ghost use Rattle.pl_filter.specs.Answers.{number_of};

    /// The number under which the refusal is printed, 1 to 3.
    pub fn number(self) -> u8
        ensures { result ≡ number_of self }
    {
        match self {
            FilterError::Syntax(_) => 1,
            FilterError::TooDeep(_) => 2,
            FilterError::Memory => 3,
        }
    }
}

impl From<AllocError> for FilterError {
    ghost from_gives = { λ _ e. e ≡ Memory };

    fn from(_e: AllocError) -> FilterError {
        FilterError::Memory
    }
}

impl<T: Drop> From<AllocFailed<T>> for FilterError {
    ghost from_gives = { λ _ e. e ≡ Memory };

    fn from(_e: AllocFailed<T>) -> FilterError {
        FilterError::Memory
    }
}
