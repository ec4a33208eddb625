//! Shares a node between threads: the lock around it, a session's gate, which waits for the outcome
//! of an update, and the seats, which read without the lock.
//!
//! A node among threads. `open` gives an `OpenedNode`, of which `share` makes what threads share. `held` is what the
//! lock holds: the node, its publisher (`published`) and its clock. `running` is the lock, with a condition on which
//! threads wait for an outcome, until it is there or their client has left. `NodeGate` is a session's gate, a `Seat`
//! its look. Under the lock an event goes to the node, the seats are shown what is executed, and the step's messages go
//! into the queues (`Peers`). Then those who wait are woken. The role is one atomic word (`standing`), read without the
//! lock. The thread of the clock rests on a lock of its own (`rest`). With a journal, events wait in an `inbox`, and
//! one thread takes all of them as one batch (`driving`), unless the thread that brings one may drive (`drivers`).
//!
//! A lock tells no state of what it holds, but the node's identity never changes. So a type parameter stands for it
//! (`NodeIdentity`): it is picked in the proof of the call that shares the opened node.
//!
//! Proved: when the lock is free, what seats see begins what the node has executed. `handle`, `hear`, `give`,
//! `handle_batch` and `tick` name the node before and after: it is the opened one, it made its step at the event, and
//! the step's messages are handed over, all, in order, and no others. The event that a session's gate gives is the
//! request that was asked, and an update ends as its outcome at a state of that node that the lock held (`NodeGate`,
//! `settled`). `open` gives the node that its start made, with seats that have seen nothing.
#![tactic(auto)]

mod arrival;
mod beats;
mod drivers;
mod driving;
mod ending;
mod events;
mod gate;
mod held;
mod identity;
mod inbox;
mod moved;
mod opened;
mod opening;
mod peers;
mod published;
mod running;
mod standing;
mod telling;
mod waiters;

pub use arrival::Arrival;
pub use dir_node::{
    Cluster, Event, JournalDevice, Name, Node, NodeConfig, NodeError, NoteError, Op, Outputs,
    PeerMessage, Send, ViewStoreError,
};
pub use dir_seats::{Seat, Told};
pub use driving::Batched;
pub use ending::Request;
pub use gate::NodeGate;
pub use held::{Pulse, Standing};
pub use identity::NodeIdentity;
pub use inbox::EventBatch;
pub use moved::{Acted, Handed, Moved};
pub use opened::{Opened, OpenedNode};
pub use opening::{OpenOptions, open};
pub use peers::{Peers, send_all};
pub use published::Here;
pub use replica_clock::{Majority, Pace, Progress, Sign, Steps, Times};
pub use running::{SharedNode, Ticked, copies};
