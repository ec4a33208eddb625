//! Why a value has no key.

ghost use Rattle.std.specs.Prelude.{◌≡◌};
ghost use Rattle.ldap_syntax.specs.declared.fault.ValueError.TheVariants.{NoMemory};

use std::alloc::{AllocError, AllocFailed};
use thiserror::Error;

/// Why a value has no key.
#[derive(Clone, Copy, Debug, PartialEq, Eq, Error)]
pub enum ValueError {
    /// The value is not in the rule's syntax (RFC 4517 3.3).
    #[error("E11: the value is not in the syntax")]
    NotInSyntax,
    #[error("out of memory")]
    NoMemory,
}

impl From<AllocError> for ValueError {
    ghost from_gives = { λ _ e. e ≡ NoMemory };

    fn from(_e: AllocError) -> ValueError {
        ValueError::NoMemory
    }
}

impl<T: Drop> From<AllocFailed<T>> for ValueError {
    ghost from_gives = { λ _ e. e ≡ NoMemory };

    fn from(_e: AllocFailed<T>) -> ValueError {
        ValueError::NoMemory
    }
}
