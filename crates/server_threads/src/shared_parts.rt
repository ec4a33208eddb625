//! What a server's threads share, made before any of them begins: the listener of replicas, doors, queues.
use crate::addresses::Addresses;
use crate::fault::{Audience, ListenFailure, ServerError};
use peer_threads::{
    Address, Cluster, Counters, LinkTimes, Links, NeededThreads, Op, PeerMessage, PeerOutbox,
    PeerParts, PeerProgress, ReplicaAddresses, Reporter, Terms,
};
use server_monitor::{Logs, ProcessFiles, StartProgress};
use session_pool::{Budget, Door, HasDoor, Limits};
use std::alloc::{AllocError, Global};
use std::net::{Net, SocketAddr, TcpListener, TcpStream};
use std::sync::atomic::{AtomicBool, AtomicU64, Ordering};
use std::sync::{Mutex, Wait};

/// How many messages wait for a replica, at most.
const MESSAGES: usize = 1024;

/// What they weigh, at most, but for the newest: about the octets of memory that they take beside their payloads.
const WEIGHT: usize = 67_108_864;

/// The queues to all replicas.
fn outboxes(alloc: Global, count: usize) -> Result<Vec<PeerOutbox>, AllocError> {
    let mut boxes = Vec::new(alloc);
    for _ in 0..count {
        boxes.push(PeerOutbox::new(alloc, MESSAGES, WEIGHT)?)?;
    }
    Ok(boxes)
}

/// The URI of each replica, by index.
fn uris(alloc: Global, places: &[ReplicaAddresses<'_>]) -> Result<Vec<String>, AllocError> {
    let mut uris = Vec::new(alloc);
    for place in places {
        uris.push(place.referral(alloc)?)?;
    }
    Ok(uris)
}

/// For each of so many threads that update, that nobody has left.
fn leaves(alloc: Global, count: usize) -> Result<Vec<AtomicBool>, AllocError> {
    let mut leaves = Vec::with_capacity(alloc, count)?;
    for _ in 0..count {
        leaves.push(AtomicBool::new(false))?;
    }
    Ok(leaves)
}

/// A listener at this address, at which they are heard.
pub fn listen<R: Net<Listener = TcpListener, Stream = TcpStream>>(
    rt: &R,
    who: Audience,
    address: SocketAddr,
) -> Result<TcpListener, ServerError> {
    match TcpListener::bind(rt, address) {
        Ok(listener) => Ok(listener),
        Err(error) => Err(ServerError::CannotListenAt(ListenFailure {
            who,
            address,
            cause: error.kind(),
        })),
    }
}

/// The address at which this replica is to listen: of a name's the first.
fn own<R: Net>(rt: &R, address: Address<'_>) -> Result<SocketAddr, ServerError> {
    match address.first(rt) {
        Some(address) => Ok(address),
        None => Err(ServerError::NoSuchHost),
    }
}

/// How a server serves.
#[derive(Clone, Copy)]
pub struct Choices<'a> {
    pub limits: Limits,
    /// What all replicas must have alike.
    pub terms: Terms,
    /// How many threads update.
    pub updates: usize,
    /// Where monitors are answered, if they are.
    pub metrics: Option<SocketAddr>,
    pub logs: Logs,
    /// How many octets of memory clients may take together.
    pub memory: u64,
    /// The program's version, as monitors are told it.
    pub version: &'a str,
    /// How often other replicas are asked whether they are there, and how long they may be silent then.
    pub link_times: LinkTimes,
}

/// What a server's threads share, as it is made before they begin.
pub struct SharedParts {
    /// Where clients are to find the replica.
    pub(crate) client_address: SocketAddr,
    /// Where they are heard, once they are.
    pub(crate) heard_at: Mutex<Option<SocketAddr>>,
    pub peers: TcpListener,
    /// Where monitors are answered, if they are.
    pub(crate) monitors: Option<TcpListener>,
    pub(crate) monitor_door: Door,
    pub(crate) client_door: Door,
    pub(crate) peer_door: Door,
    pub(crate) boxes: Vec<PeerOutbox>,
    pub uris: Vec<String>,
    pub needed_threads: NeededThreads,
    /// What is said on standard error.
    pub reporter: Reporter,
    pub logs: Logs,
    /// What is counted for monitors.
    pub counters: Counters,
    /// How far other replicas are.
    pub progress: PeerProgress,
    /// What the system tells of the process.
    pub(crate) process_files: ProcessFiles,
    /// The program's version, as monitors are told it.
    pub(crate) version: String,
    /// How far the start is.
    pub start: StartProgress,
    /// The addresses of clients, where sessions are logged.
    pub(crate) addresses: Option<Addresses>,
    pub(crate) links: Links,
    pub sender: u8,
    /// What all replicas must have alike.
    pub(crate) terms: Terms,
    pub(crate) link_times: LinkTimes,
    /// How many clients are connected.
    pub(crate) sessions: AtomicU64,
    /// The memory that clients may take together.
    pub(crate) budget: Budget,
    /// For each thread that updates, whether the client of its update has left.
    pub leaves: Vec<AtomicBool>,
    /// What is never so: nobody leaves who waits for nothing.
    pub stays: AtomicBool,
    /// Whether another replica has refused this start, since it remembers less than this replica said.
    pub is_refused: AtomicBool,
}

impl SharedParts {
    /// How many clients are connected.
    pub fn sessions(&self) -> u64 {
        self.sessions.load(Ordering::SeqCst)
    }

    /// What the links to the other replicas share.
    pub fn peer_parts(&self) -> PeerParts<'_> {
        PeerParts {
            boxes: self.boxes.as_slice(),
            links: &self.links,
            progress: &self.progress,
            counters: &self.counters,
            reporter: &self.reporter,
            is_refused: &self.is_refused,
            sender: self.sender,
            terms: self.terms,
        }
    }

    /// Puts a message into the queue to the replica of this index: see `PeerParts::post`.
    pub fn post<R: Wait>(&self, rt: &R, to: u64, message: PeerMessage<Op>) {
        self.peer_parts().post(rt, to, message);
    }

    /// Sends what was posted, as far as it goes at once: see `PeerParts::send_posted`.
    pub fn send_posted<R: Wait>(&self, rt: &R, alloc: Global, cluster: Cluster) {
        self.peer_parts().send_posted(rt, alloc, cluster);
    }
}

/// The door at which clients wait.
impl HasDoor for SharedParts {
    fn door(&self) -> &Door {
        &self.client_door
    }
}

// Not derived: see "What the gate takes" in docs/ARCHITECTURE.md.
impl Drop for SharedParts {
    fn drop(self) {
        let SharedParts {
            client_address: _,
            heard_at: _,
            peers: _,
            monitors: _,
            monitor_door: _,
            client_door: _,
            peer_door: _,
            boxes: _,
            uris: _,
            needed_threads: _,
            reporter: _,
            logs: _,
            counters: _,
            progress: _,
            process_files: _,
            version: _,
            start: _,
            addresses: _,
            links: _,
            sender: _,
            terms: _,
            link_times: _,
            sessions: _,
            budget: _,
            leaves: _,
            stays: _,
            is_refused: _,
        } = self;
    }
}

/// The listeners of the replica of this index, and all that its threads share, of which so many update. Replicas that
/// have other terms are refused.
pub fn make_shared_parts<R: Net<Listener = TcpListener, Stream = TcpStream>>(
    rt: &R,
    alloc: Global,
    places: &[ReplicaAddresses<'_>],
    index: u64,
    choices: Choices<'_>,
    process_files: ProcessFiles,
) -> Result<SharedParts, ServerError> {
    let Choices {
        limits,
        terms,
        updates,
        metrics,
        logs,
        memory,
        link_times,
        version,
    } = choices;
    let Some(place) = places.get(index as usize) else {
        return Err(ServerError::CannotListen);
    };
    let Ok(sender) = u8::try_from(index) else {
        return Err(ServerError::CannotListen);
    };
    let boxes = outboxes(alloc, places.len())?;
    let uris = uris(alloc, places)?;
    let reporter = Reporter::new(alloc, logs.notes())?;
    let links = Links::new(alloc, places.len())?;
    let leaves = leaves(alloc, updates)?;
    let counters = Counters::new(alloc, places.len())?;
    let progress = PeerProgress::new(alloc, places.len())?;
    let version = String::from_str(alloc, version)?;
    // Clients are heard later; whether they can be is known from the start.
    let client_address = own(rt, place.ldap_address)?;
    drop(listen(rt, Audience::Clients, client_address)?);
    let peers = listen(rt, Audience::Replicas, own(rt, place.peer_address)?)?;
    let monitors = match metrics {
        Some(address) => Some(listen(rt, Audience::Monitors, address)?),
        None => None,
    };
    let addresses = match logs.connections {
        true => Some(Addresses::new(alloc)),
        false => None,
    };
    Ok(SharedParts {
        client_address,
        heard_at: Mutex::new(None),
        peers,
        monitors,
        monitor_door: Door::new(limits),
        client_door: Door::new(limits),
        peer_door: Door::new(limits),
        boxes,
        uris,
        needed_threads: NeededThreads::new(places.len(), metrics.is_some()),
        reporter,
        logs,
        counters,
        progress,
        process_files,
        version,
        start: StartProgress::new(alloc)?,
        addresses,
        links,
        sender,
        terms,
        link_times,
        sessions: AtomicU64::new(0),
        budget: Budget::new(memory),
        leaves,
        stays: AtomicBool::new(false),
        is_refused: AtomicBool::new(false),
    })
}
