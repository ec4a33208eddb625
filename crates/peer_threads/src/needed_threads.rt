//! How many threads a server has, and how many of them have begun.
ghost use Rattle.std.specs.Prelude.{◌≤◌, ◌*◌, ◌-◌, min};

use std::sync::atomic::{AtomicU64, Ordering};

/// The fewest threads that read from other replicas: room for connections that are dead and don't show it yet.
const FEWEST_READERS: u64 = 8;

/// For each other replica so many threads read: it has one connection at a time, and others of it may be dead and not
/// show it yet.
const READERS_EACH: u64 = 4;

/// The most threads that read, where two for each other replica are no more.
const MOST_READERS: u64 = 64;

/// So many threads take the connections of replicas, look at unverified peers, hand them on, wait for what clients may
/// ask, drive the node, and write what is said.
const OTHER_THREADS: u64 = 6;

/// So many threads more take the connections of clients, read for them and update.
const CLIENT_THREADS: u64 = 3;

/// How many threads of each of so many replicas read from other ones, each from one connection at a time: four for each
/// other one, but 8 at least, and 64 at most or two for each other one.
pub fn readers(count: usize) -> u64
    ensures fewest { 8 ≤ result }
    ensures two_each { min (2 * (count - 1)) 18446744073709551615 ≤ result }
{
    let others = (count as u64).saturating_sub(1);
    others
        .saturating_mul(READERS_EACH)
        .min(MOST_READERS)
        .max(others.saturating_mul(2))
        .max(FEWEST_READERS)
}

/// The threads that a server can't do without, beside the one that serves no one else: a thread that can't be had would
/// begin only at the end.
#[derive(Drop)]
pub struct NeededThreads {
    begun: AtomicU64,
    wanted: AtomicU64,
}

impl NeededThreads {
    /// Nobody has begun. Of so many replicas each has a writer for each other one, its readers, and six threads more,
    /// or seven where monitors are answered.
    pub fn new(count: usize, has_monitors: bool) -> NeededThreads {
        let others = (count as u64).saturating_sub(1);
        NeededThreads {
            begun: AtomicU64::new(0),
            wanted: AtomicU64::new(
                others
                    .saturating_add(readers(count))
                    .saturating_add(OTHER_THREADS)
                    .saturating_add(u64::from(has_monitors)),
            ),
        }
    }

    /// Clients are heard from now on: threads for them are to begin.
    pub fn open(&self) {
        self.wanted.fetch_add(CLIENT_THREADS, Ordering::SeqCst);
    }

    /// A thread has begun.
    pub fn begin(&self) {
        self.begun.fetch_add(1, Ordering::SeqCst);
    }

    /// Whether all have.
    pub fn is_whole(&self) -> bool {
        self.begun.load(Ordering::SeqCst) >= self.wanted.load(Ordering::SeqCst)
    }
}
