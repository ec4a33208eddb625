//! Where a node stands among the replicas. Plain data.

/// Where a node stands among the replicas.
#[derive(Clone, Copy, Debug, PartialEq, Eq)]
pub enum Standing {
    /// It is the normal primary of its view.
    Primary,
    /// It is normal, and the replica of this index is the primary of its view.
    Backup { primary: u64 },
    /// Its view has not begun yet.
    Changing,
    /// It learns the state from the others, or it has stopped.
    Recovering,
}
