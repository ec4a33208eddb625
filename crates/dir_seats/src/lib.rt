//! Answers reads of what a replica has published, without a lock: a publisher shows what its node
//! has executed, and each thread that reads has a seat.
//!
//! Readers of what a node has executed that take no lock, by `left_right` in its ruled form. A shown value (`shown`) is
//! an owner of one version of the node's own directory, with the number of its last record; so each update is made
//! once. By the rule of each step (`rule`, `proofs/Kept`), what a seat saw or was told begins what is published. The
//! records are there for proofs alone (`Snapshot`).
//!
//! A `Seat` is its floor, the longest list that it saw or was told. A search (`look`) becomes an owner of what is
//! published, lets the reader's guard go, and then reads. So a publication waits for a seat only while that counts one
//! owner more. A `Told` is itself a reader, which a `Teller` makes. What only an older version had goes with its last
//! owner.
//!
//! Proved: a read is answered by the definition, of one published list. That begins with the floor, is no shorter than
//! the number that was named, and becomes the floor (`Seat::search`, `compare`, `learn`). What is published is all that
//! was executed; all of it is told (`Publisher::append`, `publish`, `tell`). No clause says that a seat which was told
//! nothing reads the newest list.
#![tactic(auto)]

mod look;
mod making;
mod publisher;
pub mod rule;
mod seat;
pub mod shown;
mod steps;
mod teller;

pub use dir_search::{
    CompareRequest, Ended, Found, Gate, Look, LookError, Reply, Role, SearchAnswer, SearchRequest,
    Update,
};
pub use making::seats;
pub use publisher::Publisher;
pub use seat::{Seat, Told};
pub use state_machine::{Executed, Indexes, Name, Op, Schema, Store};
pub use teller::Teller;
pub use vr_state::words::{Client, LogEntry};
