//! What a server's threads share of its links to the other replicas. Plain references.
use crate::links::Links;
use crate::progress::PeerProgress;
use peer_link::{Op, Outbox, PeerMessage, Terms};
use server_monitor::{Counters, Reporter};
use std::net::TcpStream;
use std::sync::atomic::AtomicBool;

/// The queue to one replica, with its stream while no thread sends.
pub type PeerOutbox = Outbox<PeerMessage<Op>, TcpStream>;

/// What a server's threads share of its links to the other replicas.
#[derive(Clone, Copy)]
pub struct PeerParts<'a> {
    /// The queue to each replica, by index.
    pub boxes: &'a [PeerOutbox],
    /// Which replicas are heard.
    pub links: &'a Links,
    /// How far they are.
    pub progress: &'a PeerProgress,
    /// What is counted of them for monitors.
    pub counters: &'a Counters,
    /// What is said on standard error.
    pub reporter: &'a Reporter,
    /// Whether another replica has refused this start.
    pub is_refused: &'a AtomicBool,
    /// The index of this replica.
    pub sender: u8,
    /// What all replicas must have alike.
    pub terms: Terms,
}
