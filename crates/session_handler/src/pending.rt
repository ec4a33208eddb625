//! A request that waits for its answer. Plain data.

use request_checks::{Answering, Named};

/// A request that waits for its answer: what its response needs.
#[derive(Clone, Copy)]
pub struct Pending {
    /// messageID.
    pub id: u32,
    pub answering: Answering,
    pub named: Named,
}
