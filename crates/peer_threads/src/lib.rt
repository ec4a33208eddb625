//! Runs the threads that exchange messages with the other replicas: they take connections, send messages, verify
//! who connects, and hear what replicas send.
//!
//! `linking` starts these threads. `verifying` keeps unverified peers at the port for peers until a greeting begins;
//! `receiving` reads greetings and frames, and hands messages on (`handler`). For each other replica one thread writes
//! and four read (in all 8 at least, and at most 64 or two each); `needed_threads` counts the threads that have begun.
//! `places` has replicas' addresses, `telling` the lines that are logged.
//!
//! Proved: readers are 8 or more, and two or more for each other replica (`readers`). Of the rest, safety alone.
#![tactic(auto)]

mod handler;
mod linking;
mod needed_threads;
mod places;
mod receiving;
mod telling;
mod verifying;

pub use handler::MessageHandler;
pub use linking::PeerThreads;
pub use needed_threads::NeededThreads;
pub use peer_messages::{
    Address, Claim, Cluster, Counters, Lack, LinkTimes, Links, MessageFrames, Op, PeerMessage,
    PeerOutbox, PeerParts, PeerProgress, Reporter, Terms,
};
pub use places::ReplicaAddresses;
