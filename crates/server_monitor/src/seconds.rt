//! Counts how long things took, by bound, for monitors. All threads count, and none takes a lock for it.
use status_page::{Bucket, BucketBound, Histogram};
use std::alloc::{AllocError, Global};
use std::sync::atomic::{AtomicU64, Ordering};
use std::time::Duration;

/// The bounds that are counted by, the least first.
const BOUNDS: [BucketBound; 12] = [
    BucketBound::Micros100,
    BucketBound::Micros300,
    BucketBound::Millis1,
    BucketBound::Millis3,
    BucketBound::Millis10,
    BucketBound::Millis30,
    BucketBound::Millis100,
    BucketBound::Millis300,
    BucketBound::Second1,
    BucketBound::Seconds3,
    BucketBound::Seconds10,
    BucketBound::Infinite,
];

/// How long something took, each time.
pub struct Seconds {
    /// For each bound, how often it took no longer, but longer than the one before.
    within: Vec<AtomicU64>,
    micros: AtomicU64,
}

// Not derived: see "What the gate takes" in docs/ARCHITECTURE.md.
impl Drop for Seconds {
    fn drop(self) {
        let Seconds {
            within: _,
            micros: _,
        } = self;
    }
}

impl Seconds {
    /// Nothing was counted yet.
    pub fn new(alloc: Global) -> Result<Seconds, AllocError> {
        let mut within = Vec::with_capacity(alloc, BOUNDS.len())?;
        for _ in 0..BOUNDS.len() {
            within.push(AtomicU64::new(0))?;
        }
        Ok(Seconds {
            within,
            micros: AtomicU64::new(0),
        })
    }

    /// It took so long, once; nothing is counted where no clock could be read.
    pub fn note(&self, time: Option<Duration>) {
        let Some(time) = time else {
            return;
        };
        let micros = u64::try_from(time.as_micros()).unwrap_or(u64::MAX);
        self.micros.fetch_add(micros, Ordering::Relaxed);
        for (bound, count) in BOUNDS.iter().zip(self.within.iter()) {
            if bound.holds(micros) {
                count.fetch_add(1, Ordering::Relaxed);
                break;
            }
        }
    }

    /// What was counted.
    pub fn times(&self, alloc: Global) -> Result<Histogram, AllocError> {
        let mut buckets = Vec::new(alloc);
        let mut count: u64 = 0;
        for (bound, within) in BOUNDS.iter().zip(self.within.iter()) {
            count = count.saturating_add(within.load(Ordering::Relaxed));
            buckets.push(Bucket {
                bound: *bound,
                number: count,
            })?;
        }
        Ok(Histogram {
            buckets,
            micros: self.micros.load(Ordering::Relaxed),
            count,
        })
    }
}
