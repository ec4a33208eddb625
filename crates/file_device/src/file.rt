//! Opens a file as a device.
ghost use Rattle.std.specs.Prelude.{◌≡◌, ◌≤◌, [], length, true, IfOk, IfSome, IsTrue};
ghost use Rattle.view_store.specs.Memory.{seen_after};
ghost use Rattle.file_device.specs.History.{view_events};
ghost use Rattle.file_device.specs.private.Within.{begin_within};
ghost use Rattle.file_device.specs.Unused.{IsUnused, first_slot};
ghost use Rattle.view_store.specs.Device.{HasRisen};

use crate::fault::FileDeviceError;
use crate::judging::is_torn;
use crate::known_octets::KnownOctets;
use crate::place::{failed, open_locked, sync_folder};
use std::alloc::Global;
use std::fs::{File, Files};
use std::io::{ErrorKind, Read};
use std::os::unix::fs::FileExt;
use view_store::{Cluster, DeviceFailure};

/// How many octets of a file are read, copied or zeroed at once, at most: a buffer on the stack.
pub(crate) const PIECE: usize = 65_536;

/// A file with more octets is refused.
const MAX_OCTETS: usize = 4096;

/// The version of a stored view of a replica without a journal, and of one with.
const ALONE: u8 = 2;

const JOURNALED: u8 = 3;

/// The first slot of a stored view as its first store writes it: an open gate, the version, the sequence 1, view 0, one
/// restart, the cluster.
fn first_slot(version: u8, cluster: Cluster) -> [u8; 32]
    ensures { result ≡ first_slot version cluster }
{
    let [_, _, a, b, c, d, e, f] = cluster.number().to_be_bytes();
    [
        0xa5, version, 0, 0, 0, 0, 0, 0, 0, 1, 0, 0, 0, 0, 0, 0, 0, 0, 0, 0, 0, 0, 0, 0, 0, 1, a,
        b, c, d, e, f,
    ]
}

/// A file as a device. Every octet that was read or written is kept beside it, and a read or a length that the file
/// answers otherwise is a failure. What a crash leaves of it is said by the rules of a device: each call of the system
/// that writes or syncs is noted beside it, and that the system and the disk keep these rules is assumed. A sync hands
/// the octets to the operating system's own sync of the file; the folder of a file without octets is synced when that
/// is opened, so that a file that was made is found again.
pub struct FileDevice {
    pub(crate) alloc: Global,
    pub(crate) file: File,
    /// What the file holds, as far as it is honest.
    pub(crate) image: Vec<u8>,
    /// What clauses know of the file.
    pub(crate) known: KnownOctets,
    pub(crate) failures: u64,
    ghost shown: { image.items ≡ seen_after known.history.base (view_events known.history) },
    ghost writes_within: { begin_within known.history.base (view_events known.history) ≡ true },
}

// Not derived: see "What the gate takes" in docs/ARCHITECTURE.md.
impl Drop for FileDevice {
    fn drop(self) {
        let FileDevice {
            alloc: _,
            file: _,
            image: _,
            known: _,
            failures: _,
        } = self;
    }
}

impl FileDevice {
    /// Opens a regular file; where there is none, it is made, if it may be. It is locked as long as the device is
    /// there, so that a file that another device holds is refused, whatever process it is of. Nothing is written to it.
    pub fn open<R: Files<File = File>>(
        rt: &R,
        alloc: Global,
        path: &str,
        may_be_made: bool,
    ) -> Result<FileDevice, FileDeviceError>
        ensures { IfOk result (λ device. (length device.image.items ≤ 4096) × (device.failures ≡ 0)
            × (device.known.history.events ≡ [])) }
    {
        let mut file = open_locked(rt, path, may_be_made)?;
        let image = read_image(alloc, &mut file, MAX_OCTETS)?;
        if image.is_empty() {
            sync_folder(rt, path).map_err(failed)?;
        }
        let mut known = KnownOctets::new();
        known.join(&image);
        Ok(FileDevice {
            alloc,
            file,
            image,
            known,
            failures: 0,
        })
    }

    /// Writes what the file held as it was opened once more, as it is, and syncs it: a sync that failed in an earlier
    /// process may have left that in the system's memory alone, where it is read, and no later sync writes it. What is
    /// known of the file begins anew.
    pub fn settled(self) -> Result<FileDevice, FileDeviceError>
        ensures { IfOk result (λ device. (device.image ≡ self.image) × (device.failures ≡ self.failures)
            × (device.known.history.events ≡ [])) }
    {
        let FileDevice {
            alloc,
            file,
            image,
            known: _,
            failures,
        } = self;
        file.write_all_at(&image, 0).map_err(failed)?;
        file.sync_data().map_err(failed)?;
        let mut known = KnownOctets::new();
        known.join(&image);
        Ok(FileDevice {
            alloc,
            file,
            image,
            known,
            failures,
        })
    }

    /// Whether the file holds nothing: no octets, zeros, or the first stored view of a replica of this cluster whose
    /// writing was cut short. No replica has promised anything that is in such a file.
    pub fn holds_nothing(&self, cluster: Cluster) -> bool
        ensures { IsTrue result → IsUnused cluster self.now.image.items }
    {
        is_torn(&self.image, &first_slot(ALONE, cluster))
            || is_torn(&self.image, &first_slot(JOURNALED, cluster))
    }

    /// Counts a failure.
    pub(crate) fn fail(&mut self) -> DeviceFailure
        ensures image { self.new.image ≡ self.old.image }
        ensures known { self.new.known ≡ self.old.known }
        ensures later { self.old.failures ≤ self.new.failures }
        ensures risen { HasRisen self.old.failures self.new.failures }
    {
        self.failures = self.failures.saturating_add(1);
        DeviceFailure
    }
}

/// Reads once; a read that was interrupted is one of no octets, and none at all is the end.
pub(crate) fn read_some(file: &mut File, piece: &mut [u8]) -> Result<Option<usize>, FileDeviceError>
    ensures { IfOk result (λ got. IfSome got (λ count. count ≤ length piece.new)) }
{
    match file.read(piece) {
        Ok(0) => Ok(None),
        Ok(count) => Ok(Some(count)),
        Err(error) => {
            if error.kind() == ErrorKind::Interrupted {
                Ok(Some(0))
            } else {
                Err(failed(error))
            }
        }
    }
}

/// How many octets a file has, as far as the system says, and so many at most.
fn size_of(file: &File, most: usize) -> usize {
    match file.metadata() {
        Ok(about) => about.len().min(most as u64) as usize,
        Err(_) => 0,
    }
}

/// Reads all octets of a file, so many at most. They are put where they stay: room for as many as the file has is made
/// first.
pub(crate) fn read_image(
    alloc: Global,
    file: &mut File,
    most: usize,
) -> Result<Vec<u8>, FileDeviceError>
    ensures { IfOk result (λ image. length image.items ≤ most) }
{
    let Ok(mut image) = Vec::with_capacity(alloc, size_of(file, most)) else {
        return Err(FileDeviceError::NoMemory);
    };
    let mut piece = [0u8; PIECE];
    for _ in 0..u64::MAX {
        let Some(count) = read_some(file, &mut piece)? else {
            return Ok(image);
        };
        if count > most - image.len() {
            return Err(FileDeviceError::TooLong);
        }
        if image.extend_from_slice(&piece[..count]).is_err() {
            return Err(FileDeviceError::NoMemory);
        }
    }
    Err(FileDeviceError::TooLong)
}
