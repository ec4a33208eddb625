//! Whose a journal is: which replica of which cluster. Plain data.

/// Whose a journal is.
#[derive(Clone, Copy, Debug, PartialEq, Eq)]
pub struct Owner {
    /// The number of the cluster.
    pub cluster: u64,
    /// The replica's index among all, from 0.
    pub index: u64,
    /// How many replicas there are.
    pub count: u64,
}
