//! How far a start over a journal is. The thread that starts the node says so, and whoever answers monitors reads it.
use status_page::Start;
use std::alloc::{AllocError, Global};
use std::sync::Arc;
use std::sync::atomic::{AtomicU64, Ordering};

/// A start is over, its journal is read, or its records are made.
const OVER: u64 = 0;

const READING: u64 = 1;

const RESUMING: u64 = 2;

/// How far a start is: over, until something else is said.
pub struct StartProgress {
    phase: AtomicU64,
    whole: AtomicU64,
    records: AtomicU64,
    /// How many octets of the journal were read: the journal's file says so itself.
    octets: Arc<AtomicU64, Global>,
}

// Not derived: see "What the gate takes" in docs/ARCHITECTURE.md.
impl Drop for StartProgress {
    fn drop(self) {
        let StartProgress {
            phase: _,
            whole: _,
            records: _,
            octets: _,
        } = self;
    }
}

impl StartProgress {
    /// A start of which nothing was said.
    pub fn new(alloc: Global) -> Result<StartProgress, AllocError> {
        Ok(StartProgress {
            phase: AtomicU64::new(OVER),
            whole: AtomicU64::new(0),
            records: AtomicU64::new(0),
            octets: Arc::new(alloc, AtomicU64::new(0))?,
        })
    }

    /// A journal of so many octets is read. Gives where it is said how many were.
    pub fn read(&self, whole: u64) -> Result<Arc<AtomicU64, Global>, AllocError> {
        self.whole.store(whole, Ordering::SeqCst);
        self.phase.store(READING, Ordering::SeqCst);
        Arc::try_clone(&self.octets)
    }

    /// The journal told so many records, which are made now.
    pub fn resume(&self, whole: u64) {
        self.whole.store(whole, Ordering::SeqCst);
        self.phase.store(RESUMING, Ordering::SeqCst);
    }

    /// So many records were made.
    pub fn make(&self, records: u64) {
        self.records.store(records, Ordering::SeqCst);
    }

    /// All were made, or there is no journal.
    pub fn end(&self) {
        self.phase.store(OVER, Ordering::SeqCst);
    }

    /// How far it is.
    pub fn start(&self) -> Start {
        let whole = self.whole.load(Ordering::SeqCst);
        match self.phase.load(Ordering::SeqCst) {
            READING => Start::Reading {
                octets: self.octets.load(Ordering::SeqCst).min(whole),
                whole,
            },
            RESUMING => Start::Resuming {
                records: self.records.load(Ordering::SeqCst).min(whole),
                whole,
            },
            _ => Start::Over,
        }
    }
}
