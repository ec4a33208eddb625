// Why an entry is not changed or made.

ghost use Rattle.std.specs.Prelude.{◌≡◌};
ghost use Rattle.dir_entry.specs.declared.fault.EntryError.TheVariants.{NoMemory};

use std::alloc::{AllocError, AllocFailed};
use thiserror::Error;

/// A refusal of an edit or a check, by the name of its result code (RFC 4511 Appendix A).
#[derive(Clone, Copy, Debug, PartialEq, Eq, Error)]
pub enum EntryError {
    /// 21: a value is not in its type's syntax.
    #[error("invalidAttributeSyntax (21)")]
    InvalidAttributeSyntax,
    /// 16: an attribute or a value that is to be deleted is not there.
    #[error("noSuchAttribute (16)")]
    NoSuchAttribute,
    /// 20: a value or a type is given twice, or a value is there already.
    #[error("attributeOrValueExists (20)")]
    AttributeOrValueExists,
    /// 19: a SINGLE-VALUE type has more than one value, or no value is given where one has to be.
    #[error("constraintViolation (19)")]
    ConstraintViolation,
    /// 65: the entry doesn't obey its classes.
    #[error("objectClassViolation (65)")]
    ObjectClassViolation,
    /// 67: a value of the entry's relative name is gone.
    #[error("notAllowedOnRDN (67)")]
    NotAllowedOnRdn,
    /// 69: the entry's structural class is another one.
    #[error("objectClassModsProhibited (69)")]
    ObjectClassModsProhibited,
    #[error("out of memory")]
    NoMemory,
}

impl From<AllocError> for EntryError {
    ghost from_gives = { λ _ e. e ≡ NoMemory };

    fn from(_e: AllocError) -> EntryError {
        EntryError::NoMemory
    }
}

impl<T: Drop> From<AllocFailed<T>> for EntryError {
    ghost from_gives = { λ _ e. e ≡ NoMemory };

    fn from(_e: AllocFailed<T>) -> EntryError {
        EntryError::NoMemory
    }
}
