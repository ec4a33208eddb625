//! A file as the device under a journal: a block that says whose the journal is, and the journal's octets behind it.
ghost use Rattle.std.specs.Prelude.{◌≡◌, ◌≤◌, [], Some, IfOk};
ghost use Rattle.view_store.specs.Device.{HasRisen};

use crate::fault::FileDeviceError;
use crate::first_block::{BLOCK, read_front, write_first_block};
use crate::frame_scan::FrameScan;
use crate::judging::{Holding, judge};
use crate::kept_octets::KeptOctets;
use crate::migrating::migrated;
use crate::owner::JournalOwner;
use crate::place::{failed, open_locked, sync_folder};
use crate::reading::read_octets;
use crate::synced_mark::mark_in;
use journal::DeviceFailure;
use std::alloc::Global;
use std::fs::{File, Files};
use std::io;
use std::sync::Arc;
use std::sync::atomic::AtomicU64;

/// How many octets a journal's file may have.
const MAX_OCTETS: u64 = 0x4000_0000_0000_0000;

/// A file as the device under a journal. What it holds is judged before anything is written there. It is read once, as
/// it is opened; what was read is kept in pieces until the journal lets go of it, and a read of what isn't kept fails.
/// A write or a growth lets go of all. So a batch costs one write of its own octets and one sync, and nothing of the
/// file stays in memory. The journal's octets begin behind the first block. What a crash leaves of it is said by the
/// rules of a device: each call of the system that writes, grows or syncs is noted beside it, and that the system and
/// the disk keep these rules is assumed (GUARANTEES).
pub struct JournalFile {
    pub(crate) file: File,
    /// What the file holds behind its first block, as far as it is honest.
    pub(crate) octets: KeptOctets,
    pub(crate) failures: u64,
    /// Up to where the first block says that the journal is synced, once this process has noted that.
    pub(crate) marked: Option<u64>,
    /// From where on the journal has cleared what stands there, and the file hasn't been written yet.
    pub(crate) uncleared: Option<u64>,
    /// Whether the file was one of version 1, which has no first block, and was written anew with one.
    pub was_earlier: bool,
    /// Where it is said up to where the journal has gone over the octets, where somebody asks.
    pub(crate) gone_over: Option<Arc<AtomicU64, Global>>,
}

// Not derived: see "What the gate takes" in docs/ARCHITECTURE.md.
impl Drop for JournalFile {
    fn drop(self) {
        let JournalFile {
            file: _,
            octets: _,
            failures: _,
            marked: _,
            uncleared: _,
            was_earlier: _,
            gone_over: _,
        } = self;
    }
}

/// Refuses a journal that was cut inside its first block, or of which less is read than was synced: how far its frames
/// reach, beside what that block says. Gives where the frames begin that may not be synced, and where the last one
/// ends.
fn check_whole(octets: &KeptOctets, front: &[u8]) -> Result<(u64, u64), FileDeviceError> {
    if front.len() < BLOCK {
        return Err(FileDeviceError::Damaged {
            at: front.len() as u64,
        });
    }
    let mut scan = FrameScan::new();
    octets.scan(&mut scan);
    match mark_in(front) {
        Some(mark) if scan.end() < mark => Err(FileDeviceError::Damaged {
            at: scan.end().saturating_add(BLOCK as u64),
        }),
        Some(mark) => Ok((mark, scan.end())),
        None => Ok((0, scan.end())),
    }
}

/// Writes the frames once more that may not be synced, and syncs them. A sync that failed in an earlier process may
/// have left them in the system's memory alone, where they are read, and no later sync writes them.
fn settle(file: &File, octets: &KeptOctets, unsynced: (u64, u64)) -> io::Result<()> {
    let (from, to) = unsynced;
    octets.write_again(file, from, to)?;
    file.sync_data()
}

impl JournalFile {
    /// Opens the file in which a replica keeps its journal, and makes it where there is none. Anything but this
    /// replica's journal, or nothing, is refused, and stays as it is. What may not be synced of the journal is written
    /// once more, as it is, and synced. At a first start a journal of version 1 is refused too. The file is locked as
    /// long as the device is there, so that a file that another device holds is refused, whatever process it is of.
    pub fn open<R: Files<File = File>>(
        rt: &R,
        alloc: Global,
        path: &str,
        owner: &JournalOwner,
        is_fresh: bool,
    ) -> Result<JournalFile, FileDeviceError>
        ensures { IfOk result (λ device. (device.failures ≡ 0) × (device.octets.known.history.events ≡ [])) }
    {
        let mut file = open_locked(rt, path, true)?;
        let front = read_front(alloc, &mut file)?;
        match judge(alloc, &front, owner)? {
            Holding::Own => JournalFile::read(alloc, file, &front, false),
            Holding::Nothing => JournalFile::begin(rt, alloc, path, file, owner),
            Holding::Earlier if is_fresh => Err(FileDeviceError::HoldsJournal),
            Holding::Earlier => {
                let mut anew = migrated(rt, alloc, path, &file, owner)?;
                let front = read_front(alloc, &mut anew)?;
                JournalFile::read(alloc, anew, &front, true)
            }
        }
    }

    /// The device over a file of which the first block was read.
    fn read(
        alloc: Global,
        file: File,
        front: &[u8],
        was_earlier: bool,
    ) -> Result<JournalFile, FileDeviceError>
        ensures { IfOk result (λ device. (device.failures ≡ 0) × (device.octets.known.history.events ≡ [])) }
    {
        let mut file = file;
        let octets = read_octets(alloc, &mut file, MAX_OCTETS)?;
        let unsynced = check_whole(&octets, front)?;
        if !was_earlier {
            settle(&file, &octets, unsynced).map_err(failed)?;
        }
        Ok(JournalFile {
            file,
            octets,
            failures: 0,
            marked: None,
            uncleared: None,
            was_earlier,
            gone_over: None,
        })
    }

    /// The device over a file whose first octets hold nothing. Where what follows them holds something, nothing is
    /// written.
    fn begin<R: Files<File = File>>(
        rt: &R,
        alloc: Global,
        path: &str,
        file: File,
        owner: &JournalOwner,
    ) -> Result<JournalFile, FileDeviceError>
        ensures { IfOk result (λ device. (device.failures ≡ 0) × (device.octets.known.history.events ≡ [])) }
    {
        let mut file = file;
        let octets = read_octets(alloc, &mut file, MAX_OCTETS)?;
        if !octets.are_zeros() {
            return Err(FileDeviceError::NotAJournal);
        }
        write_first_block(alloc, &file, owner)?;
        file.sync_data().map_err(failed)?;
        sync_folder(rt, path).map_err(failed)?;
        Ok(JournalFile {
            file,
            octets,
            failures: 0,
            marked: None,
            uncleared: None,
            was_earlier: false,
            gone_over: None,
        })
    }

    /// How many octets there are behind the first block.
    pub fn size(&self) -> u64 {
        self.octets.size()
    }

    /// The same device, which says there up to where the journal has gone over the octets as it reads them.
    pub fn telling(self, gone_over: Arc<AtomicU64, Global>) -> JournalFile
        ensures { result ≡ record self { gone_over = Some gone_over } }
    {
        let mut device = self;
        device.gone_over = Some(gone_over);
        device
    }

    /// Counts a failure.
    pub(crate) fn fail(&mut self) -> DeviceFailure
        ensures octets { self.new.octets ≡ self.old.octets }
        ensures later { self.old.failures ≤ self.new.failures }
        ensures risen { HasRisen self.old.failures self.new.failures }
    {
        self.failures = self.failures.saturating_add(1);
        DeviceFailure
    }
}
