//! Why a note isn't written, or a string is no note.
ghost use Rattle.std.specs.Prelude.{◌≡◌};
ghost use Rattle.log_journal.specs.declared.error.NoteError.TheVariants.{DeviceFailed, NoMemory};

use journal::DeviceFailure;
use std::alloc::AllocError;
use thiserror::Error;

/// A note that isn't written or isn't read.
#[derive(Clone, Copy, Debug, PartialEq, Eq, Error)]
pub enum NoteError {
    /// A growth was refused.
    #[error("no memory")]
    NoMemory,
    /// The string is no note.
    #[error("E28: damaged journal")]
    Damaged,
    /// The journal is of another version.
    #[error("E27: another version")]
    AnotherVersion,
    /// The update has no octets that are read as it: an add of an attribute without values, or more than 4294967295
    /// octets.
    #[error("E3: the update can't be written")]
    Unwritable,
    /// There is no room for the batch, and the device can't grow.
    #[error("E29: journal full")]
    Full,
    /// The device failed.
    #[error("E21: the device failed")]
    DeviceFailed,
}

impl From<AllocError> for NoteError {
    ghost from_gives = { λ _ e. e ≡ NoMemory };

    fn from(_: AllocError) -> NoteError {
        NoteError::NoMemory
    }
}

impl From<DeviceFailure> for NoteError {
    ghost from_gives = { λ _ e. e ≡ DeviceFailed };

    fn from(_: DeviceFailure) -> NoteError {
        NoteError::DeviceFailed
    }
}
