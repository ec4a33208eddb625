//! Opens regular files under a lock, and knows which file a name led to.
use crate::fault::FileDeviceError;
use std::fs::{File, Files, Metadata, OpenOptions, TryLockError};
use std::io::{self, Error, ErrorKind};
use std::os::unix::fs::MetadataExt;

/// Which file this is: the one of this number on this device.
#[derive(Clone, Copy, Debug, PartialEq, Eq)]
pub struct FileIdentity {
    device: u64,
    inode: u64,
}

/// The file that this was told of.
pub fn identity_of(metadata: &Metadata) -> FileIdentity {
    FileIdentity {
        device: metadata.dev(),
        inode: metadata.ino(),
    }
}

/// Whether this error says that a name leads to no file. Any other error says nothing of the file.
fn is_missing(kind: ErrorKind) -> bool {
    kind == ErrorKind::NotFound || kind == ErrorKind::NotADirectory
}

/// Whether this error says that there is no room for a file.
pub fn is_full(kind: ErrorKind) -> bool {
    kind == ErrorKind::StorageFull
        || kind == ErrorKind::QuotaExceeded
        || kind == ErrorKind::FileTooLarge
}

/// Why a file can't be used that a call of the system failed for.
pub fn failed(error: Error) -> FileDeviceError {
    if is_full(error.kind()) {
        return FileDeviceError::Full;
    }
    FileDeviceError::Failed(error.kind())
}

/// Whether a name leads to no file now, or to another one. A look that the system refuses shows nothing.
pub fn is_elsewhere<R: Files<File = File>>(rt: &R, path: &str, identity: FileIdentity) -> bool {
    match rt.metadata(path) {
        Ok(metadata) => identity_of(&metadata) != identity,
        Err(error) => is_missing(error.kind()),
    }
}

/// Whether a name leads to this file.
pub fn is_there<R: Files<File = File>>(rt: &R, path: &str, identity: FileIdentity) -> bool {
    match rt.metadata(path) {
        Ok(metadata) => identity_of(&metadata) == identity,
        Err(_) => false,
    }
}

/// Refuses a name that leads to what is no regular file, before that is opened: an open may wait, or do something by
/// itself. Where there is nothing, a file may have to be made.
fn check_kind<R: Files<File = File>>(
    rt: &R,
    path: &str,
    may_be_made: bool,
) -> Result<(), FileDeviceError> {
    match rt.metadata(path) {
        Ok(about) => {
            if about.is_file() {
                Ok(())
            } else {
                Err(FileDeviceError::NotAFile)
            }
        }
        Err(error) => {
            if !is_missing(error.kind()) {
                return Err(failed(error));
            }
            if may_be_made {
                Ok(())
            } else {
                Err(FileDeviceError::Missing)
            }
        }
    }
}

/// Takes the file for this process alone.
fn lock(file: &File) -> Result<(), FileDeviceError> {
    match file.try_lock() {
        Ok(()) => Ok(()),
        Err(TryLockError::WouldBlock) => Err(FileDeviceError::InUse),
        Err(TryLockError::Error(error)) => Err(failed(error)),
    }
}

/// A regular file to read and write, locked, to which its name still leads; it may have to be made.
pub fn open_locked<R: Files<File = File>>(
    rt: &R,
    path: &str,
    may_be_made: bool,
) -> Result<File, FileDeviceError> {
    check_kind(rt, path, may_be_made)?;
    let mut options = OpenOptions::new();
    options.read(true).write(true).create(may_be_made);
    let file = options.open(rt, path).map_err(failed)?;
    lock(&file)?;
    let about = file.metadata().map_err(failed)?;
    if is_elsewhere(rt, path, identity_of(&about)) {
        return Err(FileDeviceError::InUse);
    }
    Ok(file)
}

/// The folder in which a file of this name is.
fn folder_of(path: &str) -> &str {
    match path.rsplit_once('/') {
        Some(("", _)) => "/",
        Some((folder, _)) => folder,
        None => ".",
    }
}

/// Has the operating system write what names its folder holds, where one of them may be new.
pub fn sync_folder<R: Files<File = File>>(rt: &R, path: &str) -> io::Result<()> {
    File::open(rt, folder_of(path))?.sync_all()
}
