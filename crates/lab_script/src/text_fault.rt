//! Why a text writes nothing.

ghost use Rattle.std.specs.Prelude.{◌≡◌};
ghost use Rattle.lab_script.specs.declared.text_fault.TextError.TheVariants.{NoMemory};

use std::alloc::{AllocError, AllocFailed};
use thiserror::Error;

/// Why a text writes nothing.
#[derive(Clone, Copy, Debug, Error)]
pub enum TextError {
    /// It isn't in the language.
    #[error("bad text")]
    BadText,
    #[error("out of memory")]
    NoMemory,
}

impl From<AllocError> for TextError {
    ghost from_gives = { λ _ e. e ≡ NoMemory };

    fn from(_e: AllocError) -> TextError {
        TextError::NoMemory
    }
}

impl<T: Drop> From<AllocFailed<T>> for TextError {
    ghost from_gives = { λ _ e. e ≡ NoMemory };

    fn from(_e: AllocFailed<T>) -> TextError {
        TextError::NoMemory
    }
}
