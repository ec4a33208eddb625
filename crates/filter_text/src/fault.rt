//! Why a filter has no text, or a text is no filter: E18, E9 and E10.

ghost use Rattle.std.specs.Prelude.{◌≡◌};
ghost use Rattle.filter_text.specs.declared.fault.FilterTextError.TheVariants.{NoMemory};

use std::alloc::{AllocError, AllocFailed};
use thiserror::Error;

/// Why a text gives no filter, or a filter has no text.
#[derive(Clone, Copy, Debug, PartialEq, Eq, Error)]
pub enum FilterTextError {
    /// The text is in no filter's grammar, or no text spells the filter (RFC 4515 3).
    #[error("E18: no filter text, at {at}")]
    BadFilterText { at: usize },
    /// The filter is more than 128 deep.
    #[error("E9: a filter more than 128 deep")]
    TooDeep,
    /// The filter has more than 512 items.
    #[error("E10: a filter of more than 512 items")]
    TooManyItems,
    /// Memory ran out.
    #[error("out of memory")]
    NoMemory,
}

impl From<AllocError> for FilterTextError {
    ghost from_gives = { λ _ e. e ≡ NoMemory };

    fn from(_e: AllocError) -> FilterTextError {
        FilterTextError::NoMemory
    }
}

impl<T: Drop> From<AllocFailed<T>> for FilterTextError {
    ghost from_gives = { λ _ e. e ≡ NoMemory };

    fn from(_e: AllocFailed<T>) -> FilterTextError {
        FilterTextError::NoMemory
    }
}
