//! Keeps the sessions of sockets in a table of places: each waits there for its client or for its turn, or is with a
//! thread. No lock is taken here, no thread begun, no socket waited for.
//!
//! A session (`pooled`) is a value: its number, its conversation, its socket, its place. Nothing outside changes one of
//! these. While it waits the `Table` owns it, while it is served one thread does; what threads share under one lock is
//! this table alone.
//!
//! - *Places.* Each place has one session at a time (`places`): parked, where it waits for its client in a queue; lined
//!   up, where it waits for a seat in the class of what it owes, or for a thread that updates; or away, with a thread.
//!   It comes back to its own place only.
//! - *Threads that update* (`updaters`): which session's update waits in which thread, and since when its client sends
//!   no more.
//! - *Tokens.* The poll reports a socket by its session's place and the end of its number (`tokens`), so that what is
//!   told of a session before it ended reaches no other one.
//! - *Patience.* How long a message takes is counted from its first octet; how long octets wait for a client, once more
//!   for each MiB that it has taken (`patience`).
//! - *Memory.* What a session holds is posted in a `Budget`, and kept by place (`session_turns::Holders`).
//!
//! Proved: a session hears what its socket gave, and has sent a front of what it had to send, in order
//! (`PooledSession::hear`, `say`, `queue`). How long a client takes over one message is counted from its beginning
//! (`PooledSession::hear`, `pause`). It waits where its conversation says (`destination_of`). A place has one session
//! at a time, which comes back as it is (`Table::park`, `queue`, `wake`); it is free once that has ended (`end`). Each
//! lines up in the class of what it owes at that moment, and seats take the one whose turn it is (`next_ready`). What a
//! session owes changes by `PooledSession::charge` alone. What is told of a client reaches the thread and the session
//! whose token it was told by (`note`). A client's end is told once (`gone`).
#![tactic(auto)]

mod laying;
mod patience;
mod place_state;
mod places;
mod pooled;
mod table;
mod tokens;
mod updaters;

pub use laying::{Destination, destination_of};
pub use place_state::{NoPlace, Turn};
pub use pooled::{Dropped, MakesRoom, Notice, PooledSession, ReadOutcome, Then, Traffic};
pub use table::{ClientState, Farewell, NoteOutcome, Table};
pub use tokens::{place_in, token_of};
