// Why a text is no index choice, with the line.

ghost use Rattle.std.specs.Prelude.{◌≡◌};
ghost use Rattle.index_choice.specs.declared.error.IndexError.TheVariants.{NoMemory};

use std::alloc::{AllocError, AllocFailed};
use thiserror::Error;

/// Why a text gives no index choice. Lines are counted from 1.
#[derive(Clone, Copy, Debug, PartialEq, Eq, Error)]
pub enum IndexError {
    /// The line is not a name and the indexes of its type.
    #[error("E12: line {line} chooses no indexes")]
    BadDescription { line: usize },
    /// The schema has no type of the line's name.
    #[error("E13: line {line} names what is not known")]
    UnknownName { line: usize },
    /// The line asks for an index by a rule that the type lacks.
    #[error("E16: line {line} asks for an index by a rule that the type lacks")]
    IndexWithoutRule { line: usize },
    #[error("out of memory")]
    NoMemory,
}

impl From<AllocError> for IndexError {
    ghost from_gives = { λ _ e. e ≡ NoMemory };

    fn from(_e: AllocError) -> IndexError {
        IndexError::NoMemory
    }
}

impl<T: Drop> From<AllocFailed<T>> for IndexError {
    ghost from_gives = { λ _ e. e ≡ NoMemory };

    fn from(_e: AllocFailed<T>) -> IndexError {
        IndexError::NoMemory
    }
}
