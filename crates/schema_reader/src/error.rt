// Why a text is no schema, with the line.

ghost use Rattle.std.specs.Prelude.{◌≡◌};
ghost use Rattle.schema_reader.specs.declared.error.SchemaError.TheVariants.{NoMemory};

use std::alloc::{AllocError, AllocFailed};
use thiserror::Error;

/// Why a text gives no schema. Lines are counted from 1.
#[derive(Clone, Copy, Debug, PartialEq, Eq, Error)]
pub enum SchemaError {
    /// The line is no description, or one that repeats a name, mixes families of rules, or gives a type no syntax that
    /// fits.
    #[error("E12: line {line} is no description")]
    BadDescription { line: usize },
    /// The line names a rule, a syntax, a type or a class that is not known; or, behind the last line, the type
    /// objectClass or the class top is not there.
    #[error("E13: line {line} names what is not known")]
    UnknownName { line: usize },
    /// The first line of a loop of SUPs.
    #[error("E14: line {line} begins a loop of SUPs")]
    LoopInSup { line: usize },
    /// The type has no EQUALITY rule, own or inherited.
    #[error("E15: line {line} has no EQUALITY")]
    NoEquality { line: usize },
    #[error("out of memory")]
    NoMemory,
}

impl From<AllocError> for SchemaError {
    ghost from_gives = { λ _ e. e ≡ NoMemory };

    fn from(_e: AllocError) -> SchemaError {
        SchemaError::NoMemory
    }
}

impl<T: Drop> From<AllocFailed<T>> for SchemaError {
    ghost from_gives = { λ _ e. e ≡ NoMemory };

    fn from(_e: AllocFailed<T>) -> SchemaError {
        SchemaError::NoMemory
    }
}
