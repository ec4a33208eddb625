//! What ends a session over lines early.
ghost use Rattle.std.specs.Prelude.{◌≡◌};
ghost use Rattle.local_directory.specs.declared.line_fault.LineFault.TheVariants.{NoMemory};

use ldap_session::AnswerError;
use std::alloc::{AllocError, AllocFailed};
use thiserror::Error;

/// Why a session over lines ended early.
#[derive(Clone, Copy, Debug, PartialEq, Eq, Error)]
pub enum LineFault {
    /// The line of this number, counted from 1, isn't hex.
    #[error("bad hex line {0}")]
    BadHexLine(u64),
    #[error("cannot read")]
    CannotRead,
    #[error("cannot write")]
    CannotWrite,
    /// A response has a content of over 4294967295 octets.
    #[error("E3: a response is longer than a length can say")]
    TooLong,
    #[error("out of memory")]
    NoMemory,
}

impl From<AnswerError> for LineFault {
    ghost use Rattle.local_directory.specs.Faults.{IsWriteFault};

    ghost from_gives = { λ _ fault. IsWriteFault fault };

    fn from(error: AnswerError) -> LineFault {
        match error {
            AnswerError::TooLong => LineFault::TooLong,
            AnswerError::NoMemory => LineFault::NoMemory,
        }
    }
}

impl From<AllocError> for LineFault {
    ghost from_gives = { λ _ e. e ≡ NoMemory };

    fn from(_e: AllocError) -> LineFault {
        LineFault::NoMemory
    }
}

impl<T: Drop> From<AllocFailed<T>> for LineFault {
    ghost from_gives = { λ _ e. e ≡ NoMemory };

    fn from(_e: AllocFailed<T>) -> LineFault {
        LineFault::NoMemory
    }
}
