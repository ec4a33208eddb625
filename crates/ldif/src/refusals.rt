//! Why a text gives nothing: the refusals, as the program prints them.

ghost use Rattle.std.specs.Prelude.{◌≡◌};
ghost use Rattle.ldif.specs.declared.refusals.ImportError.TheVariants.{NoMemory as NoMemoryToImport};
ghost use Rattle.ldif.specs.declared.refusals.ExportError.TheVariants.{NoMemory as NoMemoryToExport};

use crate::fault::LdifCause;
use std::alloc::{AllocError, AllocFailed};
use thiserror::Error;

/// Why a text of LDIF gives no adds.
#[derive(Clone, Copy, Debug, PartialEq, Eq, Error)]
pub enum ImportError {
    /// The line is no line of LDIF where it stands; lines are counted from 1.
    #[error("E19 {line}")]
    BadLdif { line: usize, cause: LdifCause },
    /// The content of an add is over 4294967295 octets.
    #[error("E3")]
    TooLong,
    /// There are more records than messageIDs, that is more than 2147483647.
    #[error("too many records")]
    TooManyRecords,
    /// Memory ran out.
    #[error("out of memory")]
    NoMemory,
}

/// Why lines of hex give no records.
#[derive(Clone, Copy, Debug, PartialEq, Eq, Error)]
pub enum ExportError {
    /// The line is no hex; lines are counted from 1, empty ones too.
    #[error("bad hex line {line}")]
    BadHexLine { line: usize },
    /// The search ended with a code other than success (0).
    #[error("code {number}")]
    Code { number: u32 },
    /// The lines end before the search does.
    #[error("no done message")]
    NoDoneMessage,
    /// A line is neither an entry that can be written nor the end of a search, or stands behind the end.
    #[error("bad message")]
    BadMessage,
    /// Memory ran out.
    #[error("out of memory")]
    NoMemory,
}

impl From<AllocError> for ImportError {
    ghost from_gives = { λ _ e. e ≡ NoMemoryToImport };

    fn from(_e: AllocError) -> ImportError {
        ImportError::NoMemory
    }
}

impl<T: Drop> From<AllocFailed<T>> for ImportError {
    ghost from_gives = { λ _ e. e ≡ NoMemoryToImport };

    fn from(_e: AllocFailed<T>) -> ImportError {
        ImportError::NoMemory
    }
}

impl From<AllocError> for ExportError {
    ghost from_gives = { λ _ e. e ≡ NoMemoryToExport };

    fn from(_e: AllocError) -> ExportError {
        ExportError::NoMemory
    }
}

impl<T: Drop> From<AllocFailed<T>> for ExportError {
    ghost from_gives = { λ _ e. e ≡ NoMemoryToExport };

    fn from(_e: AllocFailed<T>) -> ExportError {
        ExportError::NoMemory
    }
}
