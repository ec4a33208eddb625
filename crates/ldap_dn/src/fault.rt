//! Why a text is no name.

ghost use Rattle.std.specs.Prelude.{◌≡◌};
ghost use Rattle.ldap_dn.specs.declared.fault.NameError.TheVariants.{NoMemory};

use std::alloc::{AllocError, AllocFailed};
use thiserror::Error;

/// Why a text gives no name.
#[derive(Clone, Copy, Debug, PartialEq, Eq, Error)]
pub enum NameError {
    /// The text is in no name's grammar (RFC 4514 3), or names no type or value of the schema.
    #[error("E17: the text is no name")]
    BadName,
    #[error("out of memory")]
    NoMemory,
}

impl From<AllocError> for NameError {
    ghost from_gives = { λ _ e. e ≡ NoMemory };

    fn from(_e: AllocError) -> NameError {
        NameError::NoMemory
    }
}

impl<T: Drop> From<AllocFailed<T>> for NameError {
    ghost from_gives = { λ _ e. e ≡ NoMemory };

    fn from(_e: AllocFailed<T>) -> NameError {
        NameError::NoMemory
    }
}
