//! Why a search gives no text: the refusals, as the program prints them.

ghost use Rattle.std.specs.Prelude.{◌≡◌};
ghost use Rattle.local_directory.specs.declared.fault.SearchError.TheVariants.{NoMemory};

use ldif::LdifCause;
use std::alloc::{AllocError, AllocFailed};
use thiserror::Error;

/// Why a search gives no text.
#[derive(Clone, Copy, Debug, PartialEq, Eq, Error)]
pub enum SearchError {
    /// The line is no line of LDIF where it stands, for this cause; lines are counted from 1.
    #[error("E19 {line}")]
    BadLdif { line: usize, cause: LdifCause },
    /// The directory refuses the add of this record with this result code; records are counted from 1.
    #[error("record {number}: code {code}")]
    Refused { number: u64, code: u32 },
    /// The search is answered with a code other than success (0).
    #[error("code {number}")]
    Code { number: u32 },
    /// Memory ran out.
    #[error("out of memory")]
    NoMemory,
}

impl From<AllocError> for SearchError {
    ghost from_gives = { λ _ e. e ≡ NoMemory };

    fn from(_e: AllocError) -> SearchError {
        SearchError::NoMemory
    }
}

impl<T: Drop> From<AllocFailed<T>> for SearchError {
    ghost from_gives = { λ _ e. e ≡ NoMemory };

    fn from(_e: AllocFailed<T>) -> SearchError {
        SearchError::NoMemory
    }
}
