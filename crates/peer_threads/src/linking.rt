//! Starts the threads that exchange messages with the other replicas, and ends with them.
use crate::handler::MessageHandler;
use crate::needed_threads::{NeededThreads, readers as readers_of};
use crate::places::ReplicaAddresses;
use crate::receiving::PeerReaders;
use crate::verifying::PeerVerifier;
use client_link::{Door, PeerConnection, accept_all};
use crossbeam_channel::{Receiver, Sender, bounded};
use peer_messages::{
    Claim, Cluster, LinkTimes, MessageFrames, PeerParts, Senders, SocketDialer, TellingDialer,
    send_all,
};
use std::alloc::{AllocError, Global};
use std::net::{Net, TcpListener, TcpStream};
use std::sync::Wait;
use std::thread::{self, Threads};
use std::time::{Clock, Duration};

/// How long a connection to a replica may take to be made, in milliseconds.
const DIAL_LIMIT: u64 = 2_000;

/// What exchanges messages with the other replicas.
#[derive(Drop)]
pub struct PeerThreads<'a, R, H> {
    pub rt: &'a R,
    pub alloc: Global,
    pub parts: PeerParts<'a>,
    /// Where the other replicas connect, and their door.
    pub listener: &'a TcpListener,
    pub door: &'a Door,
    pub needed_threads: &'a NeededThreads,
    pub handler: &'a H,
    pub cluster: Cluster,
    pub places: &'a [ReplicaAddresses<'a>],
    /// What this start says of itself when it greets.
    pub claim: Claim,
    pub times: LinkTimes,
}

impl<'a, R, H> PeerThreads<'a, R, H>
where
    R: Net<Listener = TcpListener, Stream = TcpStream> + Threads + Wait + Clock + Sync,
    H: MessageHandler + Sync,
{
    /// Sends messages to one replica, until its queue is stopped.
    fn send_to(&self, to: usize) {
        if let (Some(outbox), Some(place)) = (self.parts.boxes.get(to), self.places.get(to)) {
            let limit = self.times.silence.min(Duration::from_millis(DIAL_LIMIT));
            let (rt, alloc, address) = (self.rt, self.alloc, place.peer_address);
            let socket_dialer = SocketDialer::new(rt, address, limit);
            let reporter = self.parts.reporter;
            let mut dialer = TellingDialer::new(rt, alloc, reporter, to, address, socket_dialer);
            let mut frames = MessageFrames::new(
                rt,
                alloc,
                self.parts,
                self.cluster,
                self.claim,
                to,
            );
            send_all(rt, alloc, outbox, &mut frames, &mut dialer, self.times);
        }
    }

    /// The indices of the other replicas.
    fn others(&self) -> Result<Vec<usize>, AllocError> {
        let mut others = Vec::new(self.alloc);
        let own = usize::from(self.parts.sender);
        for index in 0..self.places.len() {
            if index != own {
                others.push(index)?;
            }
        }
        Ok(others)
    }

    /// A number for each thread that reads from other replicas.
    fn readers(&self) -> Result<Vec<usize>, AllocError> {
        let mut readers = Vec::new(self.alloc);
        for index in 0..readers_of(self.places.len()) {
            readers.push(index as usize)?;
        }
        Ok(readers)
    }

    /// Takes the connections of other replicas, until the server closes.
    fn take_peers(&self, to: Sender<(u64, PeerConnection<'a, R>)>) {
        self.needed_threads.begin();
        accept_all(self.rt, self.alloc, self.listener, self.door, to);
    }

    /// Whom frames are heard from.
    fn senders(&self) -> Senders {
        Senders {
            cluster: self.cluster,
            count: self.places.len() as u64,
            own: self.parts.sender,
        }
    }

    /// What all who read from other replicas share.
    fn peer_readers(&self) -> PeerReaders<'a, R, H> {
        PeerReaders {
            rt: self.rt,
            alloc: self.alloc,
            senders: self.senders(),
            handler: self.handler,
            parts: self.parts,
            silence: self.times.silence.saturating_add(self.times.silence),
        }
    }

    /// Looks at unverified peers, and hands on those that may be other replicas.
    fn greet_peers(
        &self,
        arrivals: Receiver<(u64, PeerConnection<'a, R>)>,
        to_readers: Sender<PeerConnection<'a, R>>,
    ) -> Result<(), AllocError> {
        self.needed_threads.begin();
        let verifier = PeerVerifier {
            rt: self.rt,
            alloc: self.alloc,
            senders: self.senders(),
            door: self.door,
            reporter: self.parts.reporter,
        };
        verifier.greet(arrivals, to_readers)
    }

    /// Hears other replicas, a connection in each thread.
    fn hear_peers(
        &self,
        readers: Vec<usize>,
        waiting: Receiver<PeerConnection<'a, R>>,
    ) -> Result<(), AllocError> {
        let peer_readers = self.peer_readers();
        let needed_threads = self.needed_threads;
        let shared = &waiting;
        let hears = |_index: usize| {
            needed_threads.begin();
            peer_readers.hear_each(shared);
        };
        let _heard = thread::map_vec(self.rt, readers, &hears)?;
        Ok(())
    }

    /// Sends to other replicas, to one in each thread.
    fn send_messages(&self, writers: Vec<usize>) -> Result<(), AllocError> {
        let sends = |to: usize| {
            self.needed_threads.begin();
            self.send_to(to);
        };
        let _sent = thread::map_vec(self.rt, writers, &sends)?;
        Ok(())
    }

    /// Hears those whom unverified peers turn out to be, until nobody comes any more.
    fn hear_arrivals(
        &self,
        readers: Vec<usize>,
        arrivals: Receiver<(u64, PeerConnection<'a, R>)>,
        to_readers: Sender<PeerConnection<'a, R>>,
        waiting: Receiver<PeerConnection<'a, R>>,
    ) -> Result<(), AllocError> {
        let (greeted, heard) = thread::join(
            self.rt,
            || self.greet_peers(arrivals, to_readers),
            || self.hear_peers(readers, waiting),
        );
        greeted?;
        heard
    }

    /// Hears and sends, side by side.
    fn pass_frames(
        &self,
        readers: Vec<usize>,
        writers: Vec<usize>,
        arrivals: Receiver<(u64, PeerConnection<'a, R>)>,
        to_readers: Sender<PeerConnection<'a, R>>,
        waiting: Receiver<PeerConnection<'a, R>>,
    ) -> Result<(), AllocError> {
        let (heard, sent) = thread::join(
            self.rt,
            || self.hear_arrivals(readers, arrivals, to_readers, waiting),
            || self.send_messages(writers),
        );
        heard?;
        sent
    }

    /// Sends to the other replicas and hears them, until the server closes.
    pub fn link(&self) -> Result<(), AllocError> {
        self.needed_threads.begin();
        let writers = self.others()?;
        let readers = self.readers()?;
        let (to_verifier, arrivals) = bounded(self.alloc, 1)?;
        let (to_readers, waiting) = bounded(self.alloc, 0)?;
        let ((), passed) = thread::join(
            self.rt,
            || self.take_peers(to_verifier),
            || self.pass_frames(readers, writers, arrivals, to_readers, waiting),
        );
        passed
    }
}
