//! Why a file can't be a device.
ghost use Rattle.std.specs.Prelude.{◌≡◌};
ghost use Rattle.file_device.specs.declared.fault.FileDeviceError.TheVariants as fault;

use std::alloc::AllocError;
use std::io::ErrorKind;
use thiserror::Error;

/// Why a file wasn't opened as a device.
#[derive(Clone, Copy, Debug, PartialEq, Eq, Error)]
pub enum FileDeviceError {
    /// Another device holds it, of this process or another: both would use one stored pair.
    #[error("the file is in use by another process")]
    InUse,
    /// There is no file of this name, and none was to be made.
    #[error("there is no such file")]
    Missing,
    /// The name leads to a folder, a pipe, a socket or a device.
    #[error("this is no regular file")]
    NotAFile,
    /// It has more octets than a device may have.
    #[error("the file is too long")]
    TooLong,
    /// It holds octets, and isn't a journal.
    #[error("the file is no journal")]
    NotAJournal,
    /// It holds a journal, and was to hold none.
    #[error("the file holds a journal")]
    HoldsJournal,
    /// It holds the journal of another cluster's replica.
    #[error("the file is a journal of another cluster")]
    ForeignCluster,
    /// It holds the journal of another replica of the cluster, or of another number of them.
    #[error("the file is a journal of another replica")]
    OtherReplica,
    /// It holds a journal that was begun with another schema.
    #[error("the file is a journal of another schema")]
    OtherSchema,
    /// It holds a journal that was begun with another suffix.
    #[error("the file is a journal of another suffix")]
    OtherSuffix,
    /// It holds a journal of which something is damaged that was synced.
    #[error("the file is a damaged journal, from octet {at} on")]
    Damaged { at: u64 },
    /// The disk has no room for it.
    #[error("the disk is full")]
    Full,
    #[error("no memory")]
    NoMemory,
    /// It could not be opened, locked, read or written.
    #[error("the file can't be opened, locked, read or written: {0:?}")]
    Failed(ErrorKind),
}

impl From<AllocError> for FileDeviceError {
    ghost from_gives = { λ _ e. e ≡ fault.NoMemory };

    fn from(_: AllocError) -> FileDeviceError {
        FileDeviceError::NoMemory
    }
}
