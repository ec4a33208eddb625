//! Runs one replica, an event or a batch at a time: its protocol state, its directory, its stored
//! view and its journal change together. Locks, threads and sockets are above.
//!
//! A running replica: its state, what it has executed, its stored pair and its journal, which change together, one
//! event (`Node::handle`) or one batch (`handle_all`) at a time. First comes the step of `vr_recover`, all or nothing;
//! then the journal's append (`taking`). Then the pair is stored where the step names a view, without memory, and
//! `Executed::advance` executes what is due (`keeping`). That may stop early for want of memory, and the next event
//! goes on (`Handled::behind`). So no replica is copied, and nothing has to be undone.
//!
//! `Node::fresh` is a replica's first start, `Node::reopen` each later one. Without a journal it stores the pair with
//! one restart more before it gives out the RECOVERY whose nonce that number is. With one, the strings choose the `way`
//! (`opening`, `restarting`). An empty journal is begun, one that can't be gone on from is begun again, and the replica
//! recovers; else it goes on. `catch_up` is how much has to be committed before sessions are served.
//!
//! A device that fails stops the node for good (`Halted`). It is as one that crashed, before the step or after it with
//! its sends lost, and may be opened again (`into_devices`). `Node::outcome` looks into the client table and lends the
//! reply at the record's place. What a node knows of its devices is its type's invariant, so a caller only has to keep
//! the index below the count.
//!
//! Proved: each event is the step of the definitions, and journal and view are stored before anything is given out.
//! What is executed is the fold of the log's records; a failed device stops the node (`Node::handle`, `handle_all`).
//! Starts and outcomes are by definition (`fresh`, `reopen`, `outcome`).
#![tactic(auto)]

mod config;
mod error;
mod fault;
mod keeping;
mod laws;
mod made;
mod node;
mod opening;
mod outcome;
mod owner;
mod restarting;
mod standing;
mod starting;
mod taking;
mod way;

pub use config::{AllHandled, Handled, NodeConfig, Refused};
pub use error::NodeError;
pub use laws::{journals_return, restart_is_of_told};
pub use log_journal::{Device as JournalDevice, NoteError};
pub use node::Node;
pub use outcome::Outcome;
pub use standing::Standing;
pub use state_machine::{Executed, Indexes, Name, Op, Reply, Schema, Store};
pub use view_store::{Cluster, Device, DeviceFailure, ViewStoreError};
pub use vr_state::event::Event;
pub use vr_state::message::{Outputs, PeerMessage, Send};
pub use vr_state::sending::copy_message;
pub use vr_state::words::{Client, LogEntry, Status};
