//! Makes devices of files, one for a stored view and one for a journal, and locks them for this process. What a crash
//! leaves follows from a record of what the system was asked for.
//!
//! `FileDevice` is a real file under a stored view. It keeps the octets beside the file: a read or a length that the
//! file answers otherwise is a failure, as is any call that fails. `JournalFile` is one under a journal, written over
//! in place and grown by zeros. It is read once, as it is opened, in pieces that reads are answered from, and that are
//! let go as the journal forgets them (`kept_octets`). What is written is in the file and in clauses, and in no memory
//! (`known_octets`). A journal's octets begin behind a block that says whose it is (`heads`, `first_block`), and a file
//! is judged by that before anything is written (`judging`). A file of version 1, without a block, is written anew
//! (`migrating`). The block also notes up to where the journal was synced (`synced_mark`): where its frames end before
//! that (`frame_scan`), it is damaged. `ViewGuard` and `JournalGuard` look at the files beside their devices while a
//! replica runs: whether a path still leads to its file, and whether that holds what this start of the replica stored.
//!
//! Each locks its file, which is a regular one (`place`), and names the outcomes of a crash that the devices in memory
//! name (`may_leave`), by a record of its operations. That the system is asked before an operation is recorded no
//! clause says. A start writes what may not be synced once more (`JournalFile::open`, `FileDevice::settled`). A sync is
//! the system's `fdatasync`; the folder of a file without octets is synced when that is opened.
//!
//! A file is taken for a replica's journal only where it begins with that replica's head, and for nothing only where it
//! has no octet but zeros and a part of that head; a refusal says whose journal was found (`judging`). The scan for
//! damage and the guards are tested.
#![tactic(auto)]

mod copying;
mod device;
mod fault;
mod file;
mod first_block;
mod frame_scan;
mod heads;
mod journal_calls;
mod journal_file;
mod journal_guard;
mod judging;
mod kept_octets;
mod known_octets;
mod migrating;
mod owner;
mod place;
mod reading;
mod splicing;
mod synced_mark;
mod view_guard;

pub use fault::FileDeviceError;
pub use file::FileDevice;
pub use journal_file::JournalFile;
pub use journal_guard::JournalGuard;
pub use owner::{JournalOwner, ReplicaId};
pub use view_guard::ViewGuard;
pub use view_store::{Cluster, Device, DeviceFailure, Pair, ViewStore, ViewStoreError};
