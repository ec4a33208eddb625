// Keeps a standing in one word, which is read without a lock.
ghost use Rattle.std.specs.Prelude.{◌≡◌, ◌<◌, ◌^◌};

use dir_node::Standing;
use std::sync::atomic::{AtomicBool, AtomicU64, Ordering};

/// The words of the standings that name no replica; other words are those of a backup, and name its primary.
const PRIMARY: u64 = 0;

const CHANGING: u64 = 1;

const RECOVERING: u64 = 2;

const BACKUP: u64 = 3;

/// The word of a standing.
fn word_of(standing: Standing) -> u64 {
    match standing {
        Standing::Primary => PRIMARY,
        Standing::Changing => CHANGING,
        Standing::Recovering => RECOVERING,
        Standing::Backup { primary } => BACKUP.saturating_add(primary),
    }
}

/// The standing of a word.
fn standing_of(word: u64) -> Standing {
    match word {
        PRIMARY => Standing::Primary,
        CHANGING => Standing::Changing,
        RECOVERING => Standing::Recovering,
        _ => Standing::Backup {
            primary: word.saturating_sub(BACKUP),
        },
    }
}

/// A node's standing after its last event, how many holds of its lock have ended, and whether it hears from a majority.
#[derive(Drop)]
pub struct LastStanding {
    word: AtomicU64,
    steps: AtomicU64,
    has_majority: AtomicBool,
}

impl LastStanding {
    pub fn new(standing: Standing) -> LastStanding {
        LastStanding {
            word: AtomicU64::new(word_of(standing)),
            steps: AtomicU64::new(0),
            has_majority: AtomicBool::new(true),
        }
    }

    pub fn set(&self, standing: Standing) {
        self.word.store(word_of(standing), Ordering::SeqCst);
        self.steps.fetch_add(1, Ordering::SeqCst);
    }

    pub fn get(&self) -> Standing {
        standing_of(self.word.load(Ordering::SeqCst))
    }

    /// The standing to sessions: a primary that hears from no majority takes no update, as if its view were changing.
    pub fn to_sessions(&self) -> Standing {
        let standing = self.get();
        if standing == Standing::Primary && !self.has_majority() {
            Standing::Changing
        } else {
            standing
        }
    }

    /// How many holds of the lock have ended.
    pub fn steps(&self) -> u64 {
        self.steps.load(Ordering::SeqCst)
    }

    /// Whether it hears from a majority.
    pub fn has_majority(&self) -> bool {
        self.has_majority.load(Ordering::SeqCst)
    }

    /// It hears from a majority, or from none.
    pub fn set_majority(&self, has_majority: bool) {
        self.has_majority.store(has_majority, Ordering::SeqCst);
    }
}
