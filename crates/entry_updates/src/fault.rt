//! Why an entry is not made or changed.
ghost use Rattle.std.specs.Prelude.{◌≡◌};
ghost use Rattle.entry_updates.specs.declared.fault.UpdateError.TheVariants.{NoMemory};

use entry_changes::EntryError;
use ldap_op::ResultCode;
use std::alloc::{AllocError, AllocFailed};

/// Why an entry is not made or changed.
#[derive(Clone, Copy, Debug)]
pub enum UpdateError {
    /// A check fails, with this code (RFC 4511 Appendix A).
    Refused(ResultCode),
    NoMemory,
}

impl From<EntryError> for UpdateError {
    ghost use Rattle.entry_updates.specs.Refused.{update_error};

    ghost from_gives = { λ e a. a ≡ update_error e };

    fn from(error: EntryError) -> UpdateError {
        match error {
            EntryError::InvalidAttributeSyntax => {
                UpdateError::Refused(ResultCode::INVALID_ATTRIBUTE_SYNTAX)
            }
            EntryError::NoSuchAttribute => UpdateError::Refused(ResultCode::NO_SUCH_ATTRIBUTE),
            EntryError::AttributeOrValueExists => {
                UpdateError::Refused(ResultCode::ATTRIBUTE_OR_VALUE_EXISTS)
            }
            EntryError::ConstraintViolation => {
                UpdateError::Refused(ResultCode::CONSTRAINT_VIOLATION)
            }
            EntryError::ObjectClassViolation => {
                UpdateError::Refused(ResultCode::OBJECT_CLASS_VIOLATION)
            }
            EntryError::NotAllowedOnRdn => UpdateError::Refused(ResultCode::NOT_ALLOWED_ON_RDN),
            EntryError::ObjectClassModsProhibited => {
                UpdateError::Refused(ResultCode::OBJECT_CLASS_MODS_PROHIBITED)
            }
            EntryError::NoMemory => UpdateError::NoMemory,
        }
    }
}

impl From<AllocError> for UpdateError {
    ghost from_gives = { λ _ e. e ≡ NoMemory };

    fn from(_e: AllocError) -> UpdateError {
        UpdateError::NoMemory
    }
}

impl<T: Drop> From<AllocFailed<T>> for UpdateError {
    ghost from_gives = { λ _ e. e ≡ NoMemory };

    fn from(_e: AllocFailed<T>) -> UpdateError {
        UpdateError::NoMemory
    }
}
