//! Why a message is not answered.
ghost use Rattle.std.specs.Prelude.{◌≡◌};
ghost use Rattle.request_checks.specs.declared.fault.AnswerError.TheVariants.{NoMemory};

use std::alloc::{AllocError, AllocFailed};
use thiserror::Error;

/// Why a message is not answered.
#[derive(Clone, Copy, Debug, PartialEq, Eq, Error)]
pub enum AnswerError {
    /// A response has a content of over 4294967295 octets.
    #[error("E3: a response is longer than a length can say")]
    TooLong,
    #[error("out of memory")]
    NoMemory,
}

impl From<AllocError> for AnswerError {
    ghost from_gives = { λ _ e. e ≡ NoMemory };

    fn from(_e: AllocError) -> AnswerError {
        AnswerError::NoMemory
    }
}

impl<T: Drop> From<AllocFailed<T>> for AnswerError {
    ghost from_gives = { λ _ e. e ≡ NoMemory };

    fn from(_e: AllocFailed<T>) -> AnswerError {
        AnswerError::NoMemory
    }
}
