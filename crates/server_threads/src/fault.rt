//! Why a server doesn't run, or stopped: a line that names the cause, and one that says what to mend.
use std::alloc::{AllocError, AllocFailed};
use std::fmt::{self, Display, Formatter, Write};
use std::io::ErrorKind;
use std::net::SocketAddr;
use thiserror::Error;

/// Who is to be heard at an address.
#[derive(Clone, Copy, Debug, PartialEq, Eq)]
pub enum Audience {
    Clients,
    Replicas,
    Monitors,
}

/// Why nobody can be heard at an address, as the system says.
#[derive(Clone, Copy, Debug, PartialEq, Eq)]
pub struct ListenFailure {
    pub who: Audience,
    pub address: SocketAddr,
    pub cause: ErrorKind,
}

impl Display for ListenFailure {
    fn fmt<W: Write>(&self, f: &mut Formatter<W>) -> fmt::Result {
        let address = self.address;
        match self.who {
            Audience::Clients => write!(f, "PEER {address}, for clients: ")?,
            Audience::Replicas => write!(f, "PEER {address}, for replicas: ")?,
            Audience::Monitors => write!(f, "--metrics {address}: ")?,
        }
        match self.cause {
            ErrorKind::AddrInUse => f.write_str("another process listens there"),
            ErrorKind::AddrNotAvailable => match self.who {
                Audience::Monitors => f.write_str("it is no address of this machine"),
                _ => f.write_str("it is no address of this machine: check --id and PEER"),
            },
            ErrorKind::PermissionDenied => f.write_str(
                "this user may not listen there: ports below 1024 need CAP_NET_BIND_SERVICE",
            ),
            cause => write!(f, "the system says: {cause}"),
        }
    }
}

/// Why a file can't be opened.
#[derive(Clone, Copy, Debug, PartialEq, Eq)]
pub enum Unopened {
    /// Another process has it open, or exchanged it meanwhile.
    InUse,
    /// It has more octets than it may have.
    TooLong,
    /// The system refuses it.
    Refused(ErrorKind),
}

impl Display for Unopened {
    fn fmt<W: Write>(&self, f: &mut Formatter<W>) -> fmt::Result {
        match self {
            Unopened::InUse => f.write_str(
                "another process has the file open: end it, or check the name",
            ),
            Unopened::TooLong => f.write_str(
                "the file is longer than any that a replica writes: check the name",
            ),
            Unopened::Refused(ErrorKind::InvalidInput) => f.write_str("the name isn't UTF-8"),
            Unopened::Refused(ErrorKind::NotFound) => f.write_str(
                "its folder isn't there: make it",
            ),
            Unopened::Refused(ErrorKind::PermissionDenied) => {
                f.write_str("this user may not write to the file, or to its folder")
            }
            Unopened::Refused(cause) => write!(f, "the system says: {cause}"),
        }
    }
}

/// Why a server doesn't run, or stopped.
#[derive(Clone, Copy, Debug, PartialEq, Eq, Error)]
pub enum ServerError {
    /// The file of the stored view can't be opened, or is another process's.
    #[error("cannot open the stored view\n--store: {0}")]
    CannotOpen(Unopened),
    /// An address is another's, or not of this machine.
    #[error("cannot listen\n{0}")]
    CannotListenAt(ListenFailure),
    /// A host's name in this replica's PEER has no address.
    #[error("cannot listen\n--id: a host's name in the PEER of this replica can't be looked up: mend the name, or write an address")]
    NoSuchHost,
    /// No PEER has this replica's index.
    #[error("cannot listen\n--id: no PEER has this place")]
    CannotListen,
    /// The file holds no stored view, or one that can't be counted on.
    #[error("no stored view\n--store: the file holds no view that counts: start with --fresh where this is the first start of the replica's life, else mend --store")]
    NoStoredView,
    /// The file of a first start holds a stored view already.
    #[error("stored view found\n--fresh: the file of --store holds what a replica has promised: start without --fresh, or move the file away where that may be forgotten")]
    HoldsView,
    /// The file of a first start holds octets that are no stored view of this cluster.
    #[error("no empty file\n--fresh: the file of --store isn't empty, and holds no view of this cluster's: nothing was written to it; check the name, or move the file away")]
    HoldsOther,
    /// The name of the stored view leads to a folder, a pipe, a socket or a device.
    #[error("no regular file\n--store: the name leads to a folder, a pipe, a socket or a device")]
    StoreIsNoFile,
    /// The names of the stored view and of the journal lead to one file.
    #[error("one file\n--journal: the name leads to the file of --store: give each a file of its own")]
    SameFile,
    /// The stored view was removed, replaced or written over while the replica ran.
    #[error("stored view lost\n--store: the file was removed or replaced, or holds what this start of the replica didn't store: put back the very file that it had, and start again without --fresh; without it the replica can't come back")]
    ViewLost,
    /// The stored view is another cluster's.
    #[error("foreign cluster\n--store: the file's view is of another cluster: check --cluster and --store")]
    ForeignCluster,
    /// A journal goes with the stored view, and none is given.
    #[error("E25\n--store: a journal goes with the file's view, and none is given: start with --journal and the file that it keeps")]
    KeepsJournal,
    /// The file of the journal can't be opened, or is another process's.
    #[error("cannot open the journal\n--journal: {0}")]
    CannotOpenJournal(Unopened),
    /// The name of the journal leads to a folder, a pipe, a socket or a device.
    #[error("no regular file\n--journal: the name leads to a folder, a pipe, a socket or a device")]
    JournalIsNoFile,
    /// The file isn't empty, and isn't a journal.
    #[error("no journal\n--journal: the file isn't empty, and is no journal: nothing was written to it; check the name, or move the file away")]
    NoJournal,
    /// The journal was begun with another schema.
    #[error("other schema\n--schema: the journal was begun with another schema, and its records are read by that one alone: nothing was written to it; start with that schema, or change it as OPERATIONS.md says")]
    OtherSchema,
    /// The journal was begun with another suffix.
    #[error("other suffix\n--suffix: the journal was begun with another suffix: nothing was written to it; start with that suffix, or with another --journal")]
    OtherSuffix,
    /// The journal was removed, replaced, cut or written over while the replica ran.
    #[error("journal lost\n--journal: the file was removed, replaced or cut, or its beginning was written over: put back the very file that it had, or give it up: move it away, and the replica begins a new one from what the others know")]
    JournalLost,
    /// The journal is another cluster's.
    #[error("E23 foreign cluster\n--journal: the file is a journal of another cluster: check --cluster and --journal")]
    ForeignJournal,
    /// The journal is another replica's, or doesn't go with the stored view.
    #[error("E26 stale journal\n--journal: the file doesn't go with the view of --store, or is another replica's: find the one that does, or give it up: move it away, and the replica begins a new one from what the others know")]
    StaleJournal,
    /// The journal is of another version.
    #[error("E27 another version\n--journal: another version of the program wrote the file: start with that version")]
    OtherJournal,
    /// The journal is damaged.
    #[error("E28 damaged journal\n--journal: the file holds what no replica wrote: check the disk, then give it up: move it away, and the replica begins a new one from what the others know")]
    DamagedJournal,
    /// Of the journal a record is damaged that was synced.
    #[error("E28 damaged journal\n--journal: at octet {0} of the file a record is damaged that was synced, and nothing was written to it: check the disk, then give the file up: move it away, and the replica begins a new one from what the others know")]
    DamagedJournalAt(u64),
    /// The journal can't grow.
    #[error("E29 journal full\n--journal: the disk has no room left for the file: make room, and start again without --fresh")]
    JournalFull,
    /// The journal's file failed.
    #[error("E21\n--journal: the file failed: mend the disk, and start again without --fresh")]
    JournalFailed,
    /// Another replica has heard of this one what its files don't hold.
    #[error("older files\n--store, --journal: the files hold less than this replica has said: they were copied back, or the disk was; move the file of --journal away, and the replica begins a new one from what the others know, unless its stored view is older too: then it can't come back")]
    OlderFiles,
    /// The file failed.
    #[error("E21\n--store: the file failed: mend the disk, and start again without --fresh")]
    DeviceFailed,
    /// The system gave fewer threads than the server needs.
    #[error("no thread\nthe system gives fewer threads than the server needs: raise its limit of processes")]
    NoThread,
    /// The system has no clock that goes on.
    #[error("no clock")]
    NoClock,
    /// `listening` couldn't be written.
    #[error("cannot write")]
    CannotWrite,
    #[error("out of memory")]
    NoMemory,
}

impl From<AllocError> for ServerError {
    fn from(_: AllocError) -> ServerError {
        ServerError::NoMemory
    }
}

impl<T: Drop> From<AllocFailed<T>> for ServerError {
    fn from(_: AllocFailed<T>) -> ServerError {
        ServerError::NoMemory
    }
}
