//! Looks at the file of a journal while its replica runs: an administrator may have removed it, put another in its
//! place, cut it or written over it.
use crate::fault::FileDeviceError;
use crate::first_block::BLOCK;
use crate::heads::HEAD;
use crate::journal_file::JournalFile;
use crate::place::{FileIdentity, failed, identity_of, is_elsewhere};
use crate::synced_mark::{FRONT, mark_in};
use std::fs::{File, Files};
use std::os::unix::fs::FileExt;
use std::sync::atomic::{AtomicU64, Ordering};

/// Looks at the file of a journal beside the device over it, which it shares the open file with.
pub struct JournalGuard {
    file: File,
    /// Which file the device was opened over.
    identity: FileIdentity,
    path: String,
    /// What the file begins with.
    head: [u8; 136],
    /// How many octets it had at the last look: it never gets shorter while a replica runs, but for a growth that
    /// didn't end well.
    size: AtomicU64,
    /// Up to where it was synced at the last look, as its mark says: that never falls.
    synced: AtomicU64,
}

// Not derived: see "What the gate takes" in docs/ARCHITECTURE.md.
impl Drop for JournalGuard {
    fn drop(self) {
        let JournalGuard {
            file: _,
            identity: _,
            path: _,
            head: _,
            size: _,
            synced: _,
        } = self;
    }
}

impl JournalGuard {
    /// A guard of a journal, over a device that was opened by this path. The file stays locked as long as one of the
    /// two is there.
    pub fn new(device: &JournalFile, path: String) -> Result<JournalGuard, FileDeviceError> {
        let file = device.file.try_clone().map_err(failed)?;
        let metadata = file.metadata().map_err(failed)?;
        let mut head = [0; HEAD];
        file.read_exact_at(&mut head, 0).map_err(failed)?;
        Ok(JournalGuard {
            file,
            identity: identity_of(&metadata),
            path,
            head,
            size: AtomicU64::new(BLOCK as u64),
            synced: AtomicU64::new(0),
        })
    }

    /// How many octets the file had at the last look.
    pub fn size(&self) -> u64 {
        self.size.load(Ordering::SeqCst)
    }

    /// Whether the file has fewer octets than it had at an earlier look.
    fn is_cut(&self) -> bool {
        match self.file.metadata() {
            Ok(metadata) => {
                let size = metadata.len();
                let before = self.size.load(Ordering::SeqCst);
                self.size.store(size.max(before), Ordering::SeqCst);
                size < before
            }
            Err(_) => false,
        }
    }

    /// Whether the mark among these octets says less than one did before: an older copy was written over the file. A
    /// mark that isn't whole says nothing.
    fn is_older(&self, front: &[u8]) -> bool {
        let Some(synced) = mark_in(front) else {
            return false;
        };
        let before = self.synced.load(Ordering::SeqCst);
        self.synced.store(synced.max(before), Ordering::SeqCst);
        synced < before
    }

    /// Whether the file begins with other octets than it began with, or is an older copy.
    fn is_changed(&self) -> bool {
        let mut front = [0; FRONT];
        match self.file.read_at(&mut front, 0) {
            Ok(_) => {
                let (head, _) = front.split_at(HEAD);
                head != self.head.as_slice() || self.is_older(&front)
            }
            Err(_) => false,
        }
    }

    /// Whether the journal was removed, replaced, cut, or written over, at its beginning or by an older copy. A look
    /// that the system refuses shows nothing.
    pub fn is_lost<R: Files<File = File>>(&self, rt: &R) -> bool {
        is_elsewhere(rt, self.path.as_str(), self.identity) || self.is_cut() || self.is_changed()
    }
}
