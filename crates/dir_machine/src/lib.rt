//! A cluster of whole replicas under a schedule: each a `Node` over devices in memory, with a journal or without, as a
//! process runs it. Threads, sockets and sessions are above.
//!
//! Plays a schedule with real nodes (`Machine::run`): events and batches of events that nodes handle, messages of
//! others that come once, again, late or never, processes that end between two calls or inside one, where one of their
//! devices fails, and starts over what their devices may hold then. What is shown is all that the nodes' calls gave out
//! (`replies`), and it is the network too: a message is named by its place there. What a call gave out that ended
//! inside is shown nowhere, and never comes. A message also comes as frames: `framing` writes it as a process does, and
//! `hearing` gathers what a connection hears.
//!
//! Proved: what the nodes do is what happens in a world of the protocol, one world event for each event that a node
//! took. What is committed in that world is one list, which only grows. With journals each later start goes on as its
//! journal has kept the replica, and of any majority of processes that are up one has all that is committed, also after
//! all ended at once. Each answer of a search or a compare is that of one beginning of it, no shorter than the search
//! named (`Machine::run`). Frames that come whole and in order, whatever was heard before, are the delivery of their
//! message; of frames in any order a message comes exactly where all of its frames came last. A first start that failed
//! is made again, over an empty journal: a stop inside it promises nothing of the device (`Node::fresh`), and nobody
//! has heard of the replica by then.
#![tactic(auto)]

mod asking;
mod crashing;
mod events;
mod framing;
mod giving;
mod hearing;
mod machine;
mod network;
mod process;
mod reading;
mod replies;
mod running;
mod starting;

pub use dir_node::{
    Client, Cluster, Indexes, LogEntry, Name, NodeError, Op, Outputs, Reply, Schema, Standing,
};
pub use dir_search::{CompareRequest, SearchAnswer, SearchRequest};
pub use events::{Fates, Faults, FramePlace, Given, MachineEvent, Place};
pub use journal::{Fate as JournalFate, Fault as JournalFault};
pub use machine::Machine;
pub use replies::{Became, MachineReply};
pub use view_store::{Fate, Fault};
pub use vr_wire::FrameSizes;
