//! Keeps what seats see of one another without the table's lock.
use session_table::Table;
use session_turns::{After, Seen, follows};
use std::sync::atomic::{AtomicBool, AtomicU64, AtomicUsize, Ordering};

/// What a thread that updates and waits counts among those that wait: there are fewer seats.
const STAY: usize = 65_536;

/// What a seat that answers sees of the others.
#[derive(Drop)]
pub struct Overview {
    /// Sessions that are ready.
    queued: AtomicUsize,
    /// How many seats wait for the next message of their session, and `STAY` for each thread that updates and waits so.
    lingering: AtomicUsize,
    /// How many seats may wait so: one is left to lead.
    most: usize,
    /// Whether a seat waits for sockets or looks at them, and when one last looked, in microseconds since the pool
    /// began.
    is_led: AtomicBool,
    looked: AtomicU64,
}

impl Overview {
    /// Of so many seats none has begun.
    pub fn new(seats: usize) -> Overview {
        Overview {
            queued: AtomicUsize::new(0),
            lingering: AtomicUsize::new(0),
            most: seats.saturating_sub(1),
            is_led: AtomicBool::new(false),
            looked: AtomicU64::new(0),
        }
    }

    /// Shows the table as it is now.
    pub fn show(&self, table: &Table) {
        self.queued.store(table.ready(), Ordering::SeqCst);
        self.is_led.store(table.lead.is_led(), Ordering::SeqCst);
    }

    /// A seat has looked which sockets are ready.
    pub fn note_look(&self, now: u64) {
        self.looked.store(now, Ordering::SeqCst);
    }

    /// Whether sessions are ready.
    pub fn has_ready(&self) -> bool {
        self.queued.load(Ordering::SeqCst) > 0
    }

    /// What a thread does behind a message of a stay that began at this moment.
    pub fn what_follows(&self, now: u64, begun: u64) -> After {
        let seen = Seen {
            ready: self.queued.load(Ordering::SeqCst),
            is_led: self.is_led.load(Ordering::SeqCst),
            looked: self.looked.load(Ordering::SeqCst),
        };
        follows(seen, now, begun)
    }

    /// A seat waits for the next message of its session, if it may; it says when that ends.
    pub fn begin_wait(&self) -> bool {
        if self.lingering.fetch_add(1, Ordering::SeqCst) % STAY >= self.most {
            self.end_wait();
            return false;
        }
        true
    }

    /// It waits no more.
    pub fn end_wait(&self) {
        self.lingering.fetch_sub(1, Ordering::SeqCst);
    }

    /// One of so many threads that update waits for the next update of its session, if another is left; it says when
    /// that ends.
    pub fn begin_stay(&self, threads: usize) -> bool {
        let waiting = self.lingering.fetch_add(STAY, Ordering::SeqCst) / STAY;
        if waiting.saturating_add(1) >= threads {
            self.end_stay();
            return false;
        }
        true
    }

    /// It waits no more.
    pub fn end_stay(&self) {
        self.lingering.fetch_sub(STAY, Ordering::SeqCst);
    }
}
