//! Runs the threads of a server: they take connections, serve clients, exchange frames with the other replicas,
//! answer monitors, and write standard error. The node is behind a small trait; its clock and its files are in
//! `server`.
//!
//! The threads of a server, which know the node by a trait alone (`engine`). `shared_parts` has what they share;
//! `serving` begins and ends them. Those that exchange messages with other replicas are in `peer_threads`, those
//! that serve sessions in `session_pool`. `server_monitor` answers monitors with the pages of `pages`. One more
//! thread writes what is said (`server_monitor`). `session_events` and `telling` have the lines of sessions.
//! `starting` answers monitors and writes lines while the node is opened. Directories are wrapped by
//! `logged_directory`. The node's clock has the thread that calls.
//!
//! Of all this, safety alone is proved.
#![tactic(auto)]

mod addresses;
mod engine;
mod fault;
mod pages;
mod serving;
mod session_events;
mod shared_parts;
mod starting;
mod telling;

pub use engine::{Engine, Monitored};
pub use fault::{ServerError, Unopened};
pub use peer_threads::{
    Address, Claim, Counters, Lack, LinkTimes, MessageFrames, MessageHandler, NeededThreads,
    ReplicaAddresses, Reporter, Terms,
};
pub use server_monitor::{
    Build, Figures, GROUP_MEMORY, Lines, Logs, MACHINE_MEMORY, Note, NoteWriter, ProcessFiles,
    Role, StandardError, Start, StartProgress, Trouble, available_octets, takes_a_line,
};
pub use serving::Server;
pub use session_pool::{Config, Limits, NoReads, limit_of};
pub use shared_parts::{Choices, SharedParts, make_shared_parts};
pub use starting::Starting;
