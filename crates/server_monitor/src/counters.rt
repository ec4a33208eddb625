//! Counts of what a server answers, for monitors. All of its threads count, and none takes a lock for it.
use crate::seconds::Seconds;
use session_turns::Budget;
use status_page::{ClientCounts, Counts, Histograms, Labelled, PeerCounts, ProcessCounts};
use std::alloc::{AllocError, Global};
use std::sync::atomic::{AtomicU64, Ordering};
use std::time::Duration;

/// How many result codes are told apart: RFC 4511 has none above 80.
const CODES: usize = 128;

/// The code of an update that another replica takes (RFC 4511 4.1.9).
const REFERRAL: u64 = 10;

/// So many counters, each at 0.
fn zeros(alloc: Global, count: usize) -> Result<Vec<AtomicU64>, AllocError> {
    let mut counters = Vec::with_capacity(alloc, count)?;
    for _ in 0..count {
        counters.push(AtomicU64::new(0))?;
    }
    Ok(counters)
}

/// Counts one more at this index; nothing, where there is no such counter.
fn count_at(counters: &Vec<AtomicU64>, index: u64) {
    if let Some(counter) = counters.get(index as usize) {
        counter.fetch_add(1, Ordering::Relaxed);
    }
}

/// The counters that aren't at 0, by their indices.
fn counted(alloc: Global, counters: &Vec<AtomicU64>) -> Result<Vec<Labelled>, AllocError> {
    let mut counted = Vec::new(alloc);
    for (index, counter) in counters.iter().enumerate() {
        let number = counter.load(Ordering::Relaxed);
        if number != 0 {
            counted.push(Labelled {
                label: index as u64,
                number,
            })?;
        }
    }
    Ok(counted)
}

/// All counters but the one of this index.
fn of_others(
    alloc: Global,
    counters: &Vec<AtomicU64>,
    own: usize,
) -> Result<Vec<Labelled>, AllocError> {
    let mut others = Vec::new(alloc);
    for (index, counter) in counters.iter().enumerate() {
        if index != own {
            others.push(Labelled {
                label: index as u64,
                number: counter.load(Ordering::Relaxed),
            })?;
        }
    }
    Ok(others)
}

/// Counts so many octets at this index; nothing, where there is no such counter.
fn add_at(counters: &Vec<AtomicU64>, index: u64, octets: usize) {
    if let Some(counter) = counters.get(index as usize) {
        counter.fetch_add(octets as u64, Ordering::Relaxed);
    }
}

/// Counts of what passes between a server and each replica, by its index.
struct PeerCounters {
    queued: Vec<AtomicU64>,
    sent: Vec<AtomicU64>,
    acknowledged: Vec<AtomicU64>,
    refused: Vec<AtomicU64>,
    signs: Vec<AtomicU64>,
    heard: Vec<AtomicU64>,
    octets_sent: Vec<AtomicU64>,
    octets_received: Vec<AtomicU64>,
}

// Not derived: see "What the gate takes" in docs/ARCHITECTURE.md.
impl Drop for PeerCounters {
    fn drop(self) {
        let PeerCounters {
            queued: _,
            sent: _,
            acknowledged: _,
            refused: _,
            signs: _,
            heard: _,
            octets_sent: _,
            octets_received: _,
        } = self;
    }
}

impl PeerCounters {
    /// Counts of so many replicas, each at 0.
    fn new(alloc: Global, replicas: usize) -> Result<PeerCounters, AllocError> {
        Ok(PeerCounters {
            queued: zeros(alloc, replicas)?,
            sent: zeros(alloc, replicas)?,
            acknowledged: zeros(alloc, replicas)?,
            refused: zeros(alloc, replicas)?,
            signs: zeros(alloc, replicas)?,
            heard: zeros(alloc, replicas)?,
            octets_sent: zeros(alloc, replicas)?,
            octets_received: zeros(alloc, replicas)?,
        })
    }

    /// The counts of all but the replica of this index, of which these are connected.
    fn counts(
        &self,
        alloc: Global,
        own: usize,
        connected: Vec<Labelled>,
    ) -> Result<PeerCounts, AllocError> {
        Ok(PeerCounts {
            queued: of_others(alloc, &self.queued, own)?,
            sent: of_others(alloc, &self.sent, own)?,
            acknowledged: of_others(alloc, &self.acknowledged, own)?,
            refused: of_others(alloc, &self.refused, own)?,
            connected,
            heard: of_others(alloc, &self.heard, own)?,
            octets_sent: of_others(alloc, &self.octets_sent, own)?,
            octets_received: of_others(alloc, &self.octets_received, own)?,
        })
    }
}

/// How long requests took, and batches of events.
struct AllSeconds {
    searches: Seconds,
    compares: Seconds,
    updates: Seconds,
    batches: Seconds,
}

// Not derived: see "What the gate takes" in docs/ARCHITECTURE.md.
impl Drop for AllSeconds {
    fn drop(self) {
        let AllSeconds {
            searches: _,
            compares: _,
            updates: _,
            batches: _,
        } = self;
    }
}

impl AllSeconds {
    /// Nothing was counted yet.
    fn new(alloc: Global) -> Result<AllSeconds, AllocError> {
        Ok(AllSeconds {
            searches: Seconds::new(alloc)?,
            compares: Seconds::new(alloc)?,
            updates: Seconds::new(alloc)?,
            batches: Seconds::new(alloc)?,
        })
    }

    /// What was counted.
    fn times(&self, alloc: Global) -> Result<Histograms, AllocError> {
        Ok(Histograms {
            searches: self.searches.times(alloc)?,
            compares: self.compares.times(alloc)?,
            updates: self.updates.times(alloc)?,
            batches: self.batches.times(alloc)?,
        })
    }
}

/// Counts of what a server answers.
pub struct Counters {
    searches: Vec<AtomicU64>,
    compares: Vec<AtomicU64>,
    updates: Vec<AtomicU64>,
    binds: Vec<AtomicU64>,
    evaluated: AtomicU64,
    slow: AtomicU64,
    reads: AtomicU64,
    read_threads: AtomicU64,
    updating: AtomicU64,
    session_limit: AtomicU64,
    evicted: AtomicU64,
    octets_read: AtomicU64,
    octets_written: AtomicU64,
    /// How many octets the journal's file had at the last look, and one more; 0 where there is none.
    journal: AtomicU64,
    peers: PeerCounters,
    seconds: AllSeconds,
}

// Not derived: see "What the gate takes" in docs/ARCHITECTURE.md.
impl Drop for Counters {
    fn drop(self) {
        let Counters {
            searches: _,
            compares: _,
            updates: _,
            binds: _,
            evaluated: _,
            slow: _,
            reads: _,
            read_threads: _,
            updating: _,
            session_limit: _,
            evicted: _,
            octets_read: _,
            octets_written: _,
            journal: _,
            peers: _,
            seconds: _,
        } = self;
    }
}

/// What a server counts that isn't counted here.
#[derive(Clone, Copy)]
pub struct Others<'a> {
    /// The index of its replica.
    pub own: usize,
    /// How many threads update.
    pub update_threads: usize,
    pub process: ProcessCounts,
    /// The memory that clients may take.
    pub budget: &'a Budget,
}

impl Counters {
    /// Counts of a server of so many replicas, each at 0.
    pub fn new(alloc: Global, replicas: usize) -> Result<Counters, AllocError> {
        Ok(Counters {
            searches: zeros(alloc, CODES)?,
            compares: zeros(alloc, CODES)?,
            updates: zeros(alloc, CODES)?,
            binds: zeros(alloc, CODES)?,
            evaluated: AtomicU64::new(0),
            slow: AtomicU64::new(0),
            reads: AtomicU64::new(0),
            read_threads: AtomicU64::new(0),
            updating: AtomicU64::new(0),
            session_limit: AtomicU64::new(0),
            evicted: AtomicU64::new(0),
            octets_read: AtomicU64::new(0),
            octets_written: AtomicU64::new(0),
            journal: AtomicU64::new(0),
            peers: PeerCounters::new(alloc, replicas)?,
            seconds: AllSeconds::new(alloc)?,
        })
    }

    /// The replica of this index is there: it has sent a message, or answered that it is heard.
    pub fn hear(&self, from: u64) {
        count_at(&self.peers.signs, from);
    }

    /// How many signs of life the replica of this index has given.
    pub fn signs_of(&self, from: usize) -> u64 {
        match self.peers.signs.get(from) {
            Some(signs) => signs.load(Ordering::Relaxed),
            None => 0,
        }
    }

    /// The replica of this index was heard at this moment, in seconds since 1970.
    pub fn note_heard(&self, from: usize, seconds: u64) {
        if let Some(heard) = self.peers.heard.get(from) {
            heard.store(seconds, Ordering::Relaxed);
        }
    }

    /// So many octets of a message were made to be sent to the replica of this index.
    pub fn send_octets(&self, to: u64, octets: usize) {
        add_at(&self.peers.octets_sent, to, octets);
    }

    /// So many octets of a message came from the replica of this index.
    pub fn receive_octets(&self, from: u64, octets: usize) {
        add_at(&self.peers.octets_received, from, octets);
    }

    /// A bind was answered with this code.
    pub fn answer_bind(&self, code: u8) {
        count_at(&self.binds, u64::from(code));
    }

    /// So many octets were read of a client, and so many written to it.
    pub fn pass(&self, read: u64, written: u64) {
        self.octets_read.fetch_add(read, Ordering::Relaxed);
        self.octets_written.fetch_add(written, Ordering::Relaxed);
    }

    /// A session was ended, or not begun, since there was no room for it.
    pub fn evict(&self) {
        self.evicted.fetch_add(1, Ordering::Relaxed);
    }

    /// There may be so many sessions.
    pub fn set_session_limit(&self, count: usize) {
        self.session_limit.store(count as u64, Ordering::Relaxed);
    }

    /// The journal's file has so many octets.
    pub fn set_journal(&self, octets: u64) {
        self.journal
            .store(octets.saturating_add(1), Ordering::Relaxed);
    }

    /// How many octets the journal's file had at the last look, where there is one.
    pub fn journal(&self) -> Option<u64> {
        self.journal.load(Ordering::Relaxed).checked_sub(1)
    }

    /// A search evaluated its filter on more entries than isn't logged.
    pub fn count_slow(&self) {
        self.slow.fetch_add(1, Ordering::Relaxed);
    }

    /// An update was referred to the primary.
    pub fn refer(&self) {
        count_at(&self.updates, REFERRAL);
    }

    /// A batch of events took so long.
    pub fn note_batch(&self, time: Option<Duration>) {
        self.seconds.batches.note(time);
    }

    /// What clients take, and who was sent away.
    fn clients(&self, budget: &Budget) -> ClientCounts {
        ClientCounts {
            memory: budget.used(),
            memory_limit: budget.limit(),
            ended: budget.ended(),
            session_limit: self.session_limit.load(Ordering::Relaxed),
            evicted: self.evicted.load(Ordering::Relaxed),
            octets_read: self.octets_read.load(Ordering::Relaxed),
            octets_written: self.octets_written.load(Ordering::Relaxed),
        }
    }

    /// So many threads answer reads.
    pub fn set_read_threads(&self, count: usize) {
        self.read_threads.store(count as u64, Ordering::Relaxed);
    }

    /// A read begins to be answered.
    pub fn begin_read(&self) {
        self.reads.fetch_add(1, Ordering::Relaxed);
    }

    /// A search was answered with this code, after this time; it evaluated its filter on so many entries.
    pub fn end_search(&self, code: u64, tests: u64, time: Option<Duration>) {
        self.reads.fetch_sub(1, Ordering::Relaxed);
        self.seconds.searches.note(time);
        self.evaluated.fetch_add(tests, Ordering::Relaxed);
        count_at(&self.searches, code);
    }

    /// A compare was answered with this code, after this time.
    pub fn end_compare(&self, code: u64, time: Option<Duration>) {
        self.reads.fetch_sub(1, Ordering::Relaxed);
        self.seconds.compares.note(time);
        count_at(&self.compares, code);
    }

    /// An update begins to be made.
    pub fn begin_update(&self) {
        self.updating.fetch_add(1, Ordering::Relaxed);
    }

    /// An update ended with this code, after this time.
    pub fn end_update(&self, code: u64, time: Option<Duration>) {
        self.updating.fetch_sub(1, Ordering::Relaxed);
        self.seconds.updates.note(time);
        count_at(&self.updates, code);
    }

    /// A message was queued for the replica of this index.
    pub fn queue(&self, to: u64) {
        count_at(&self.peers.queued, to);
    }

    /// A message was taken from the queue of the replica of this index.
    pub fn send(&self, to: u64) {
        count_at(&self.peers.sent, to);
    }

    /// The replica of this index has acknowledged the log entry of this number.
    pub fn acknowledge(&self, from: u64, number: u64) {
        if let Some(acknowledged) = self.peers.acknowledged.get(from as usize) {
            acknowledged.store(number, Ordering::Relaxed);
        }
    }

    /// A start of the replica of this index was refused.
    pub fn refuse(&self, from: u64) {
        count_at(&self.peers.refused, from);
    }

    /// The counts of a server that counts this beside, and of which the replicas are connected so.
    pub fn counts(
        &self,
        alloc: Global,
        connected: Vec<Labelled>,
        others: Others<'_>,
    ) -> Result<Counts, AllocError> {
        let Others {
            own,
            update_threads,
            process,
            budget,
        } = others;
        let peers = self.peers.counts(alloc, own, connected)?;
        let times = self.seconds.times(alloc)?;
        Ok(Counts {
            searches: counted(alloc, &self.searches)?,
            compares: counted(alloc, &self.compares)?,
            updates: counted(alloc, &self.updates)?,
            binds: counted(alloc, &self.binds)?,
            evaluated: self.evaluated.load(Ordering::Relaxed),
            slow: self.slow.load(Ordering::Relaxed),
            reads: self.reads.load(Ordering::Relaxed),
            read_threads: self.read_threads.load(Ordering::Relaxed),
            updating: self.updating.load(Ordering::Relaxed),
            update_threads: update_threads as u64,
            peers,
            clients: self.clients(budget),
            times,
            process,
        })
    }
}
