//! A replica put together: its node, its queues and its clock, handed to its threads.
ghost use Rattle.std.specs.Prelude.{◌≡◌};
ghost use Rattle.node_gate.specs.Identities.{identity_of};

use crate::opening::{Guards, Names, open_node};
use crate::options::{Options, Times};
use crate::peer_queues::{PeerQueues, PeerQueuesAt};
use crate::runtime::ServerRuntime;
use crate::ticking::{TimedNode, clock_times};
use file_device::{FileDevice, JournalFile};
use node_gate::{
    Here, Node, NodeConfig, NodeGate, NodeIdentity, OpenOptions, Opened, Pace, Seat, SharedNode,
    Told,
};
use server_threads::{
    Build, Choices, Claim, Config, GROUP_MEMORY, LinkTimes, MACHINE_MEMORY, NoReads, ProcessFiles,
    ReplicaAddresses, Server, ServerError, SharedParts, Starting, available_octets, limit_of,
    make_shared_parts,
};
use std::alloc::{AllocError, Global};
use std::fs::{File, Files};
use std::io::Read;
use std::marker::Brand;
use std::sync::atomic::{AtomicBool, AtomicU64};
use std::sync::{Arc, Mutex, Wait};
use std::time::{Clock, Instant};

/// The greatest number of seats.
const SEATS: usize = 32;

/// The greatest number of threads that update.
const UPDATES: usize = 256;

/// One session's way to the node: a seat for its reads, a gate for its updates.
type Way<'a, 'r, R, I> = (
    Seat<Here>,
    NodeGate<'a, 'r, R, FileDevice, JournalFile, I, PeerQueuesAt<'a, R>>,
);

/// One thread's way to the node for updates alone.
type Updates<'a, 'r, R, I> = (
    NoReads<Option<Told<Here>>>,
    NodeGate<'a, 'r, R, FileDevice, JournalFile, I, PeerQueuesAt<'a, R>>,
);

/// A way to the node's updates, and what says that the client of one has left.
fn gate<'a, 'r, R: Wait, I: NodeIdentity>(
    clock: &TimedNode<'a, 'r, R, I>,
    has_left: &'a AtomicBool,
) -> NodeGate<'a, 'r, R, FileDevice, JournalFile, I, PeerQueuesAt<'a, R>> {
    let peer_queues = PeerQueuesAt {
        peer_queues: clock.peer_queues,
        now: 0,
    };
    let shared_parts: &'a SharedParts = clock.shared_parts;
    NodeGate::new(
        clock.rt,
        clock.running,
        peer_queues,
        &shared_parts.uris,
        has_left,
    )
}

/// A way to the node for each thread that updates.
fn gates<'a, 'r, R: Wait, I: NodeIdentity>(
    clock: &TimedNode<'a, 'r, R, I>,
) -> Result<Vec<(usize, Updates<'a, 'r, R, I>)>, AllocError> {
    let shared_parts: &'a SharedParts = clock.shared_parts;
    let mut gates = Vec::new(clock.alloc);
    for (thread, has_left) in shared_parts.leaves.iter().enumerate() {
        gates.push((thread, (NoReads::new(), gate(clock, has_left))))?;
    }
    Ok(gates)
}

/// A gate beside each seat.
fn ways<'a, 'r, R: Wait, I: NodeIdentity>(
    clock: &TimedNode<'a, 'r, R, I>,
    seats: Vec<Seat<Here>>,
) -> Result<Vec<Way<'a, 'r, R, I>>, AllocError> {
    let shared_parts: &'a SharedParts = clock.shared_parts;
    let mut ways = Vec::new(clock.alloc);
    for seat in seats {
        ways.push((seat, gate(clock, &shared_parts.stays)))?;
    }
    Ok(ways)
}

/// The settings of a server's threads.
#[derive(Clone, Copy)]
struct ServingSettings<'a> {
    config: Config<'a>,
    sessions: usize,
    times: Times,
    is_proved: bool,
    /// Where each replica is found.
    places: &'a [ReplicaAddresses<'a>],
    /// What this start says of itself to the other replicas.
    claim: Claim,
}

/// Runs all threads over what they share.
fn run_in<'a, 'r, R, N, I>(
    alloc: Global,
    seats: Vec<Seat<Here>>,
    running: &'a SharedNode<'r, R, FileDevice, JournalFile, I>,
    peer_queues: &'a PeerQueues<'a, R>,
    guards: &'a Guards,
    terms: ServingSettings<'a>,
) -> Result<(), ServerError>
where
    R: ServerRuntime<N>,
    N: Read + Drop + Send,
    I: NodeIdentity + Send + Sync,
{
    let rt = peer_queues.rt;
    let shared_parts = peer_queues.shared_parts;
    let Ok(opened) = Instant::now(rt) else {
        return Err(ServerError::NoClock);
    };
    let resumed = running.resumed(rt);
    match resumed {
        Some(records) => shared_parts.start.resume(records),
        None => shared_parts.start.end(),
    }
    let clock = TimedNode {
        rt,
        alloc,
        running,
        peer_queues,
        shared_parts,
        times: terms.times,
        opened,
        view_number: AtomicU64::new(0),
        last_update: AtomicU64::new(0),
        entries: AtomicU64::new(0),
        log_length: AtomicU64::new(0),
        view_guard: &guards.view,
        journal_guard: &guards.journal,
        restarts: terms.config.restarts,
        resumed,
        is_proved: terms.is_proved,
        trouble: AtomicU64::new(0),
    };
    let ways = ways(&clock, seats)?;
    let server = Server {
        rt,
        alloc,
        shared_parts,
        engine: &clock,
        cluster: peer_queues.cluster,
        places: terms.places,
        claim: terms.claim,
    };
    let gates = gates(&clock)?;
    server.run(ways, gates, terms.sessions, &terms.config)
}

/// Sends what an opened node sends first, and runs all threads over what they share, which is the node with this
/// identity.
fn serve_opened<R, N, I>(
    alloc: Global,
    opened: Opened<'_, R, FileDevice, JournalFile>,
    peer_queues: PeerQueues<'_, R>,
    guards: &Guards,
    terms: ServingSettings<'_>,
) -> Result<(), ServerError>
where
    R: ServerRuntime<N>,
    N: Read + Drop + Send,
    I: NodeIdentity + Send + Sync,
    requires { identity_of opened.node ≡ I.own }
{
    let Opened {
        node,
        seats,
        outputs,
        restarts: _,
    } = opened;
    let running = node.share::<I>();
    peer_queues.post_all(outputs.sends);
    run_in(alloc, seats, &running, &peer_queues, guards, terms)
}

/// What the start of this node says of itself: it goes on from what it kept, unless it recovers. Its mark is the
/// moment, so that two starts over copies of the same files have different ones.
fn claim_of<R: Clock>(rt: &R, node: &Node<FileDevice, JournalFile>) -> Result<Claim, ServerError> {
    let Ok(moment) = rt.since_1970() else {
        return Err(ServerError::NoClock);
    };
    Ok(Claim {
        start: node.restarts(),
        mark: u64::try_from(moment.as_nanos()).unwrap_or(u64::MAX),
        remembers: node.remembers(),
        view: node.view_number(),
        last_normal: node.last_normal_view(),
        length: node.log_len(),
    })
}

/// Opens the node of a first or a later start with so many seats.
fn open_with<'a, R: Files<File = File> + Wait>(
    rt: &'a R,
    alloc: Global,
    files: Names<'_>,
    node: NodeConfig,
    is_fresh: bool,
    seats: usize,
    times: &Times,
) -> Result<(Opened<'a, R, FileDevice, JournalFile>, Guards), ServerError> {
    let options = OpenOptions {
        is_fresh,
        seats: seats.clamp(1, SEATS),
        times: clock_times(times),
    };
    open_node(rt, alloc, files, node, options)
}

/// Opens the node, while monitors are answered, and serves by it.
fn serve_in<R, N>(
    rt: &R,
    alloc: Global,
    shared_parts: &SharedParts,
    options: Options<'_>,
) -> Result<(), ServerError>
where
    R: ServerRuntime<N>,
    N: Read + Drop + Send,
{
    let schema = Arc::try_clone(&options.node.schema)?;
    let Options {
        node,
        manager,
        password,
        store,
        journal,
        is_fresh,
        seats,
        sessions,
        times,
        build,
        places,
        terms,
        ..
    } = options;
    let cluster = node.cluster;
    let files = Names {
        store,
        journal,
        terms: &terms,
        reporter: &shared_parts.reporter,
        start: &shared_parts.start,
    };
    let starting = Starting {
        rt,
        alloc,
        build,
        shared_parts,
    };
    let tried = starting.beside(|| open_with(rt, alloc, files, node, is_fresh, seats, &times));
    let (opened, guards) = tried?;
    let config = Config {
        schema: &schema,
        manager: &manager,
        password: password.as_bytes(),
        replica: shared_parts.sender,
        restarts: opened.restarts,
        session: 0,
    };
    let claim = claim_of(rt, opened.node.node())?;
    let terms = ServingSettings {
        config,
        sessions: sessions.max(1),
        times,
        is_proved: matches!(build, Build::Proved),
        places,
        claim,
    };
    let peer_queues = PeerQueues {
        rt,
        alloc,
        cluster,
        shared_parts,
        asking: Mutex::new(Pace::new(clock_times(&times))),
    };
    // prover: the proof of this call picks the identity of the node that was opened.
    serve_opened::<R, N, Brand>(alloc, opened, peer_queues, &guards, terms)
}

/// Serves as a replica: listens to the others, opens its node, and serves them, and clients once the node has a state,
/// until the node has stopped for good. Where clients are heard is said on standard output, once they are. It ends only
/// with an error; where the process is ended from outside, its replica has crashed in the protocol's sense.
pub fn serve<R, N>(rt: &R, alloc: Global, options: Options<'_>) -> Result<(), ServerError>
where
    R: ServerRuntime<N>,
    N: Read + Drop + Send,
{
    let index = options.node.index;
    let machine = File::open(rt, MACHINE_MEMORY).ok();
    let group = File::open(rt, GROUP_MEMORY).ok();
    let available = available_octets(machine.as_ref(), group.as_ref());
    let choices = Choices {
        memory: limit_of(options.memory_for_clients, available),
        limits: options.limits,
        terms: options.terms,
        updates: options.updates.clamp(1, UPDATES),
        metrics: options.metrics,
        logs: options.logs,
        version: options.version,
        link_times: LinkTimes {
            beat: options.times.beat,
            silence: options.times.suspect,
        },
    };
    let process = ProcessFiles::open(rt);
    let shared_parts = make_shared_parts(rt, alloc, options.places, index, choices, process)?;
    serve_in(rt, alloc, &shared_parts, options)
}
