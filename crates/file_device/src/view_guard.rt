//! Looks at the file of a stored view while its replica runs: an administrator may have removed it, put another in its
//! place or written over it.
ghost use Rattle.std.specs.Prelude.{◌↔◌, IsTrue};
ghost use Rattle.view_store.specs.Slots.{found};
ghost use Rattle.file_device.specs.private.Guarded.{IsOfStart};

use crate::fault::FileDeviceError;
use crate::file::FileDevice;
use crate::place::{FileIdentity, failed, identity_of, is_elsewhere, is_there};
use std::fs::{File, Files};
use std::os::unix::fs::FileExt;
use view_store::{Cluster, read_pair};

/// How many octets a look reads: one more than a stored view has, so that a longer file shows.
const OCTETS: usize = 65;

/// Whether these octets are a view that this start of a cluster's replica stored: this view, or a later one.
fn is_of_start(octets: &[u8], cluster: Cluster, restarts: u64, view: u64) -> bool
    ensures { IsTrue result ↔ IsOfStart restarts view (found cluster octets.now) }
{
    match read_pair(octets, cluster) {
        Ok(pair) => pair.restarts == restarts && view <= pair.view,
        Err(_) => false,
    }
}

/// Looks at the file of a stored view beside the device over it, which it shares the open file with.
pub struct ViewGuard {
    file: File,
    /// Which file the device was opened over.
    identity: FileIdentity,
    path: String,
    cluster: Cluster,
}

// Not derived: see "What the gate takes" in docs/ARCHITECTURE.md.
impl Drop for ViewGuard {
    fn drop(self) {
        let ViewGuard {
            file: _,
            identity: _,
            path: _,
            cluster: _,
        } = self;
    }
}

impl ViewGuard {
    /// A guard of the stored view of a cluster's replica, over a device that was opened by this path. The file stays
    /// locked as long as one of the two is there.
    pub fn new(
        device: &FileDevice,
        path: String,
        cluster: Cluster,
    ) -> Result<ViewGuard, FileDeviceError> {
        let file = device.file.try_clone().map_err(failed)?;
        let metadata = file.metadata().map_err(failed)?;
        Ok(ViewGuard {
            file,
            identity: identity_of(&metadata),
            path,
            cluster,
        })
    }

    /// Whether this name leads to the same file.
    pub fn is_at<R: Files<File = File>>(&self, rt: &R, path: &str) -> bool {
        is_there(rt, path, self.identity)
    }

    /// Whether the file holds what this start of the replica didn't store, or an earlier view than this one.
    fn is_changed(&self, restarts: u64, view: u64) -> bool {
        let mut octets = [0; OCTETS];
        match self.file.read_at(&mut octets, 0) {
            Ok(count) => !is_of_start(&octets[..count], self.cluster, restarts, view),
            Err(_) => false,
        }
    }

    /// Whether the stored view was removed, replaced or written over, of a replica that was in this view before, since
    /// the start that these restarts count. A look that the system refuses shows nothing. What one read shows may be a
    /// store that the node is halfway through, so a second one has to show it too.
    pub fn is_lost<R: Files<File = File>>(&self, rt: &R, restarts: u64, view: u64) -> bool {
        is_elsewhere(rt, self.path.as_str(), self.identity)
            || (self.is_changed(restarts, view) && self.is_changed(restarts, view))
    }
}
