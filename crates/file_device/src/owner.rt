//! Whose a journal is, and by which schema and suffix it is to be read.

/// A replica of a cluster.
#[derive(Clone, Copy, Debug, PartialEq, Eq)]
pub struct ReplicaId {
    /// The number of its cluster.
    pub cluster: u64,
    /// Its index among the replicas.
    pub index: u64,
    /// How many replicas there are.
    pub count: u64,
}

/// Whose a journal is. Its records mean something only by the schema and the suffix that it was begun with.
#[derive(Clone, Copy, Debug, PartialEq, Eq)]
pub struct JournalOwner {
    pub replica: ReplicaId,
    /// The digest of the schema, as replicas greet each other with it.
    pub schema: [u8; 32],
    /// The digest of the suffix.
    pub suffix: [u8; 32],
}
