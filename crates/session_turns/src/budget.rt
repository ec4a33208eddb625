//! The memory that clients may take together, and what they have taken: a sum that all threads share.
ghost use Rattle.std.specs.Prelude.{◌≡◌, ◌↔◌, ◌*◌, ◌<◌, IsTrue};
ghost use Rattle.session_turns.specs.Limit.{limit_of};

use crate::posting::{BudgetChange, change_to};
use std::sync::atomic::{AtomicU64, Ordering};

/// A mebibyte.
const MIB: u64 = 1_048_576;

/// The limit where none is asked for: an eighth of the machine's memory between these, so that a small machine serves
/// and a large one keeps its memory for the directory.
const LEAST: u64 = 67_108_864;

const MOST: u64 = 1_073_741_824;

/// The memory that clients may take together.
#[derive(Drop)]
pub struct Budget {
    used: AtomicU64,
    limit: u64,
    ended: AtomicU64,
}

/// How many octets clients may take together, where so many MiB are asked for, on a machine of so many octets: at most
/// a quarter of them.
pub fn limit_of(asked: Option<u64>, machine: Option<u64>) -> u64
    ensures { result ≡ limit_of asked machine }
{
    match (asked, machine) {
        (Some(asked), Some(machine)) => asked.saturating_mul(MIB).min(machine / 4),
        (Some(asked), None) => asked.saturating_mul(MIB),
        (None, Some(machine)) => (machine / 8).clamp(LEAST, MOST).min(machine / 4),
        (None, None) => LEAST,
    }
}

/// Whether so much is over seven eighths of a limit.
fn is_tight(used: u64, limit: u64) -> bool
    ensures { IsTrue result ↔ (limit * 7 < used * 8) }
{
    u128::from(limit) * 7 < u128::from(used) * 8
}

impl Budget {
    /// A budget of so many octets, of which none is taken.
    pub fn new(limit: u64) -> Budget {
        Budget {
            used: AtomicU64::new(0),
            limit,
            ended: AtomicU64::new(0),
        }
    }

    /// How many octets are taken, how many may be, and how many sessions were ended because of that.
    pub fn used(&self) -> u64 {
        self.used.load(Ordering::Relaxed)
    }

    pub fn limit(&self) -> u64 {
        self.limit
    }

    pub fn ended(&self) -> u64 {
        self.ended.load(Ordering::Relaxed)
    }

    /// A session holds this, of which so much is posted: the sum changes by the difference. It is left alone where
    /// there is none.
    pub fn post(&self, posted: u64, held: u64) {
        match change_to(posted, held) {
            BudgetChange::Stays => {}
            BudgetChange::Adds(more) => {
                self.used.fetch_add(more, Ordering::Relaxed);
            }
            BudgetChange::Gives(less) => {
                self.used.fetch_sub(less, Ordering::Relaxed);
            }
        }
    }

    /// Whether more is taken than may be.
    pub fn is_over(&self) -> bool {
        self.used() > self.limit
    }

    /// Whether less than an eighth is left.
    pub fn is_tight(&self) -> bool {
        is_tight(self.used(), self.limit)
    }

    /// A session is ended for what it held.
    pub fn count_end(&self) {
        self.ended.fetch_add(1, Ordering::Relaxed);
    }
}
