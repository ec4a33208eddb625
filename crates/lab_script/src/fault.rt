// Why a line names no event, or a script isn't played. Where a script's lines come from isn't here.

ghost use Rattle.std.specs.Prelude.{◌≡◌};
ghost use Rattle.lab_script.specs.declared.fault.LineError.TheVariants.{NoMemory};
ghost use Rattle.lab_script.specs.declared.fault.ScriptError.TheVariants as script;

use std::alloc::{AllocError, AllocFailed};
use thiserror::Error;

/// Why a line names no event.
#[derive(Clone, Copy, Debug, Error)]
pub enum LineError {
    /// It isn't in the language.
    #[error("bad line")]
    BadLine,
    #[error("out of memory")]
    NoMemory,
}

impl From<AllocError> for LineError {
    ghost from_gives = { λ _ e. e ≡ NoMemory };

    fn from(_e: AllocError) -> LineError {
        LineError::NoMemory
    }
}

impl<T: Drop> From<AllocFailed<T>> for LineError {
    ghost from_gives = { λ _ e. e ≡ NoMemory };

    fn from(_e: AllocFailed<T>) -> LineError {
        LineError::NoMemory
    }
}

/// Why a script isn't played.
#[derive(Clone, Copy, Debug, Error)]
pub enum ScriptError {
    /// The line with this number isn't in the language. The first line has number 1.
    #[error("bad line {number}")]
    BadLine { number: u64 },
    #[error("out of memory")]
    NoMemory,
}

impl From<AllocError> for ScriptError {
    ghost from_gives = { λ _ e. e ≡ script.NoMemory };

    fn from(_e: AllocError) -> ScriptError {
        ScriptError::NoMemory
    }
}
