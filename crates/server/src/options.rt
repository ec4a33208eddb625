//! The settings of a server. Plain data.
use node_gate::{Name, NodeConfig};
use server_threads::{Build, Limits, Logs, ReplicaAddresses, Terms};
use std::net::SocketAddr;
use std::time::Duration;

/// When a replica moves by itself.
#[derive(Clone, Copy)]
pub struct Times {
    /// How often it sends again what others may have missed.
    pub beat: Duration,
    /// How long a backup hears nothing of its primary before it suspects it.
    pub suspect: Duration,
}

/// What a server is told.
#[derive(Drop)]
pub struct Options<'a> {
    /// How the program was built, and its version.
    pub build: Build,
    pub version: &'a str,
    /// The replica.
    pub node: NodeConfig,
    /// The name that may bind and update.
    pub manager: Name,
    pub password: &'a str,
    /// The name of the file of the stored view.
    pub store: &'a str,
    /// The name of the file of the journal, where the replica keeps one.
    pub journal: Option<&'a str>,
    /// Whether this is the first start of the replica's life.
    pub is_fresh: bool,
    /// How many threads read; 1 to 32, and what is outside counts as the nearer of the two.
    pub seats: usize,
    /// How many sessions there may be; fewer, where the system has fewer descriptors.
    pub sessions: usize,
    /// How many MiB of memory clients may take together, at most a quarter of the machine's; where that isn't told, an
    /// eighth of it, 64 MiB at least and 1 GiB at most.
    pub memory_for_clients: Option<u64>,
    /// How many threads wait for updates; 1 to 256, and what is outside counts as the nearer of the two.
    pub updates: usize,
    pub times: Times,
    pub limits: Limits,
    /// All replicas, by index.
    pub places: &'a [ReplicaAddresses<'a>],
    /// What all replicas must have alike.
    pub terms: Terms,
    /// Where monitors are answered, if they are.
    pub metrics: Option<SocketAddr>,
    /// What is logged beside what is always told.
    pub logs: Logs,
}
