//! Why a text gives no records: E19 with its line, and the cause.

ghost use Rattle.std.specs.Prelude.{◌≡◌};
ghost use Rattle.ldif.specs.declared.fault.LdifError.TheVariants.{NoMemory};

use std::alloc::{AllocError, AllocFailed};
use thiserror::Error;

/// Why a line is no line of LDIF where it stands (RFC 2849).
#[derive(Clone, Copy, Debug, PartialEq, Eq)]
pub enum LdifCause {
    /// It begins with a space, and no line is before it, or an empty one.
    ContinuesNothing,
    /// It has no colon.
    NoColon,
    /// It is of a change record: a `-` alone, or of the type `changetype` or `control`.
    Change,
    /// A value by URL stands behind its colon.
    ByUrl,
    /// What stands behind its two colons is not base64 (RFC 4648 4).
    BadBase64,
    /// What stands before its colon is no attribute description.
    NoDescription,
    /// A record's name is not UTF-8.
    NameNotUtf8,
    /// A record's name stands inside a record.
    SecondName,
    /// A value stands outside records.
    NoRecord,
    /// A version stands behind a version or a record.
    LateVersion,
    /// The version is not 1, or it is in base64.
    BadVersion,
}

/// Why a text gives no records. Lines are counted from 1, a folded one as its first part.
#[derive(Clone, Copy, Debug, PartialEq, Eq, Error)]
pub enum LdifError {
    /// The line is no line of LDIF where it stands (RFC 2849).
    #[error("E19: line {line} is no LDIF")]
    BadLdif { line: usize, cause: LdifCause },
    /// Memory ran out.
    #[error("out of memory")]
    NoMemory,
}

impl From<AllocError> for LdifError {
    ghost from_gives = { λ _ e. e ≡ NoMemory };

    fn from(_e: AllocError) -> LdifError {
        LdifError::NoMemory
    }
}

impl<T: Drop> From<AllocFailed<T>> for LdifError {
    ghost from_gives = { λ _ e. e ≡ NoMemory };

    fn from(_e: AllocFailed<T>) -> LdifError {
        LdifError::NoMemory
    }
}
