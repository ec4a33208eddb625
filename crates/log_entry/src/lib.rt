//! Log entries: who asks, the client's number for the request, and what is asked.
//!
//! The directory and the replication protocol share these, so no crate of the directory waits for the protocol.
//! `payload` copies what is asked; clients have an order.
//!
//! Proved: a copy of a log entry is equal (`LogEntry::copy`). The order of clients is total, and clients that it calls
//! equal are one (`Client`).
#![tactic(auto)]

pub mod payload;
pub mod words;
