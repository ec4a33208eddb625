//! How a replica starts over its journal. Plain data.

use log_journal::Told;

/// How a replica starts over its journal.
#[derive(Drop)]
pub enum Way {
    /// The journal is empty: the replica recovers, and its journal is begun.
    Begin,
    /// The replica can't go on from it: it recovers, and its journal is begun again.
    BeginAgain,
    /// It goes on from what the journal tells.
    Resume(Told),
}
