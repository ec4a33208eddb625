//! Opens a node over its files, and says why there is none.
ghost use Rattle.std.specs.Prelude.{◌<◌, ◌≤◌};

use file_device::{
    FileDevice, FileDeviceError, JournalFile, JournalGuard, JournalOwner, ReplicaId, ViewGuard,
    ViewStore,
};
use node_gate::{
    Cluster, NodeConfig, NodeError, NoteError, OpenOptions, Opened, ViewStoreError, open,
};
use server_threads::{Reporter, ServerError, StartProgress, Terms, Unopened};
use std::alloc::Global;
use std::fs::{File, Files};
use std::io::ErrorKind;
use std::sync::Wait;

/// A replica's files, and what they are judged by.
#[derive(Clone, Copy)]
pub struct Names<'a> {
    /// That of its stored view.
    pub store: &'a str,
    /// That of its journal, where it keeps one.
    pub journal: Option<&'a str>,
    /// What a journal's records mean something by, beside whose it is.
    pub terms: &'a Terms,
    /// Where is said what an operator is to know of them.
    pub reporter: &'a Reporter,
    /// How far the start is.
    pub start: &'a StartProgress,
}

/// What looks at a replica's files while it runs.
#[derive(Drop)]
pub struct Guards {
    pub view: ViewGuard,
    /// Where it keeps a journal.
    pub journal: Option<JournalGuard>,
}

/// Why a server doesn't run whose file of the stored view can't be had.
fn fault_of_device(error: FileDeviceError) -> ServerError {
    match error {
        FileDeviceError::NoMemory => ServerError::NoMemory,
        FileDeviceError::Missing => ServerError::NoStoredView,
        FileDeviceError::NotAFile => ServerError::StoreIsNoFile,
        FileDeviceError::InUse => ServerError::CannotOpen(Unopened::InUse),
        FileDeviceError::Failed(cause) => ServerError::CannotOpen(Unopened::Refused(cause)),
        FileDeviceError::Full => ServerError::CannotOpen(Unopened::Refused(ErrorKind::StorageFull)),
        _ => ServerError::CannotOpen(Unopened::TooLong),
    }
}

/// Why a server doesn't run whose journal's file can't be had.
fn fault_of_journal_file(error: FileDeviceError) -> ServerError {
    match error {
        FileDeviceError::NoMemory => ServerError::NoMemory,
        FileDeviceError::NotAFile => ServerError::JournalIsNoFile,
        FileDeviceError::NotAJournal => ServerError::NoJournal,
        FileDeviceError::ForeignCluster => ServerError::ForeignJournal,
        FileDeviceError::OtherReplica | FileDeviceError::HoldsJournal => ServerError::StaleJournal,
        FileDeviceError::OtherSchema => ServerError::OtherSchema,
        FileDeviceError::OtherSuffix => ServerError::OtherSuffix,
        FileDeviceError::Damaged { at } => ServerError::DamagedJournalAt(at),
        FileDeviceError::Full => ServerError::JournalFull,
        FileDeviceError::InUse => ServerError::CannotOpenJournal(Unopened::InUse),
        FileDeviceError::TooLong => ServerError::CannotOpenJournal(Unopened::TooLong),
        FileDeviceError::Missing => {
            ServerError::CannotOpenJournal(Unopened::Refused(ErrorKind::NotFound))
        }
        FileDeviceError::Failed(cause) => {
            ServerError::CannotOpenJournal(Unopened::Refused(cause))
        }
    }
}

/// Why a server doesn't run, or stopped, whose journal refused a call.
fn fault_of_journal(error: NoteError) -> ServerError {
    match error {
        NoteError::NoMemory => ServerError::NoMemory,
        NoteError::Damaged => ServerError::DamagedJournal,
        NoteError::AnotherVersion => ServerError::OtherJournal,
        NoteError::Full => ServerError::JournalFull,
        NoteError::Unwritable | NoteError::DeviceFailed => ServerError::JournalFailed,
    }
}

/// Why a server doesn't run, or stopped, whose node refused a call.
pub fn fault_of_node(error: NodeError) -> ServerError {
    match error {
        NodeError::NoMemory => ServerError::NoMemory,
        NodeError::Store(ViewStoreError::NoPair) => ServerError::NoStoredView,
        NodeError::Store(ViewStoreError::ForeignCluster) => ServerError::ForeignCluster,
        NodeError::Store(ViewStoreError::KeepsJournal) => ServerError::KeepsJournal,
        NodeError::Journal(error) => fault_of_journal(error),
        NodeError::ForeignJournal => ServerError::ForeignJournal,
        NodeError::StaleJournal => ServerError::StaleJournal,
        NodeError::Store(_) | NodeError::Halted => ServerError::DeviceFailed,
    }
}

/// The device of a first start, which may hold no stored view, since a replica that forgets what it has promised could
/// break what others rely on; and nothing else.
fn unused(device: FileDevice, cluster: Cluster) -> Result<FileDevice, ServerError> {
    let holds_nothing = device.holds_nothing(cluster);
    let mut views = ViewStore::new(device, cluster);
    match views.load() {
        Err(ViewStoreError::NoPair) => {
            if holds_nothing {
                Ok(views.into_device())
            } else {
                Err(ServerError::HoldsOther)
            }
        }
        Ok(_) | Err(ViewStoreError::ForeignCluster) => Err(ServerError::HoldsView),
        Err(_) => Err(ServerError::DeviceFailed),
    }
}

/// The device of a later start, which has to hold a stored view of the cluster's. It is synced before anything is made
/// of it.
fn used(device: FileDevice, cluster: Cluster) -> Result<FileDevice, ServerError> {
    let mut views = ViewStore::new(device, cluster);
    match views.load() {
        Ok(_) => views.into_device().settled().map_err(fault_of_device),
        Err(error) => Err(fault_of_node(NodeError::Store(error))),
    }
}

/// The device of a first or a later start, over the file of this name; only a first start makes one.
fn device_of<R: Files<File = File>>(
    rt: &R,
    alloc: Global,
    store: &str,
    cluster: Cluster,
    is_fresh: bool,
) -> Result<FileDevice, ServerError> {
    let device = FileDevice::open(rt, alloc, store, is_fresh).map_err(fault_of_device)?;
    match is_fresh {
        true => unused(device, cluster),
        false => used(device, cluster),
    }
}

/// Whose journal a replica keeps.
fn owner_of(config: &NodeConfig, terms: &Terms) -> JournalOwner {
    JournalOwner {
        replica: ReplicaId {
            cluster: config.cluster.number(),
            index: config.index,
            count: config.count,
        },
        schema: terms.schema,
        suffix: terms.suffix,
    }
}

/// Says that a journal of 0.2.0 was written anew.
fn tell_of_journal<R: Wait>(rt: &R, alloc: Global, reporter: &Reporter, device: &JournalFile) {
    if device.was_earlier {
        reporter.say(
            rt,
            format!(in alloc; "journal: of 0.2.0, written anew with its schema and suffix"),
        );
    }
}

/// The device of the journal, where one is kept.
fn journal_of<R: Files<File = File> + Wait>(
    rt: &R,
    alloc: Global,
    files: Names<'_>,
    owner: &JournalOwner,
    is_fresh: bool,
) -> Result<Option<JournalFile>, ServerError> {
    let Some(path) = files.journal else {
        return Ok(None);
    };
    match JournalFile::open(rt, alloc, path, owner, is_fresh) {
        Ok(device) => {
            tell_of_journal(rt, alloc, files.reporter, &device);
            let gone_over = files.start.read(device.size())?;
            Ok(Some(device.telling(gone_over)))
        }
        Err(error) => Err(fault_of_journal_file(error)),
    }
}

/// What looks at the file of the stored view, of this name, while the replica runs.
fn view_guard_of(
    alloc: Global,
    device: &FileDevice,
    store: &str,
    cluster: Cluster,
) -> Result<ViewGuard, ServerError> {
    let path = String::from_str(alloc, store)?;
    ViewGuard::new(device, path, cluster).map_err(fault_of_device)
}

/// What looks at the file of the journal while the replica runs, where it keeps one.
fn journal_guard_of(
    alloc: Global,
    device: &Option<JournalFile>,
    journal: Option<&str>,
) -> Result<Option<JournalGuard>, ServerError> {
    let (Some(device), Some(journal)) = (device, journal) else {
        return Ok(None);
    };
    let path = String::from_str(alloc, journal)?;
    match JournalGuard::new(device, path) {
        Ok(guard) => Ok(Some(guard)),
        Err(error) => Err(fault_of_journal_file(error)),
    }
}

/// Whether the stored view and the journal are one file.
fn is_one_file<R: Files<File = File>>(rt: &R, view: &ViewGuard, journal: Option<&str>) -> bool {
    match journal {
        Some(path) => view.is_at(rt, path),
        None => false,
    }
}

/// The node of a first or a later start, over the files of these names, and its seats; and what looks at its files. The
/// stored view is judged before the journal, and both before anything is written to either.
pub fn open_node<'a, R: Files<File = File> + Wait>(
    rt: &'a R,
    alloc: Global,
    files: Names<'_>,
    config: NodeConfig,
    options: OpenOptions,
) -> Result<(Opened<'a, R, FileDevice, JournalFile>, Guards), ServerError>
    requires seats { (0 < options.seats) × (options.seats ≤ 32) }
{
    if config.index >= config.count {
        return Err(ServerError::CannotListen);
    }
    let device = device_of(rt, alloc, files.store, config.cluster, options.is_fresh)?;
    let view = view_guard_of(alloc, &device, files.store, config.cluster)?;
    if is_one_file(rt, &view, files.journal) {
        return Err(ServerError::SameFile);
    }
    let owner = owner_of(&config, files.terms);
    let device_of_journal = journal_of(rt, alloc, files, &owner, options.is_fresh)?;
    let journal = journal_guard_of(alloc, &device_of_journal, files.journal)?;
    match open(rt, alloc, device, device_of_journal, config, options) {
        Ok(opened) => Ok((opened, Guards { view, journal })),
        Err(error) => Err(fault_of_node(error)),
    }
}
