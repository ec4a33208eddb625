//! Links between replicas: sends frames from a bounded queue over a stream that it connects again whenever that fails,
//! reads frames off a stream, and writes and compares the greetings that begin each connection.
//!
//! An `Outbox` is a queue under a lock; `put` waits for that lock alone. `send_all`, in a thread of its own, makes an
//! item's frames outside every lock (`Framing`), once there is a stream; frames of items that wait together go out in
//! one write. While that thread waits, its stream is in the outbox: a thread that has put a short item sends what
//! waits, as far as the stream takes it at once (`send_at_once`, `Spell`; `turns` says who may). It makes the stream
//! again when a write fails, the other end has closed, or answers nothing for too long, by the rules of `replica_clock`
//! (`KeepAlive`, `Backoff`). Memory grows in pieces of 8,192 octets with what came, not with what was announced; the
//! caller judges lengths between the calls.
//!
//! A greeting, the first frame on each connection, has digests of what all replicas of a cluster must have alike
//! (`terms`), and what the sender's start remembers (`claim`). `meeting` compares the digests with the own ones: a
//! replica that was started with another schema is refused, and named, before anything else of it is heard. `past`
//! keeps what another replica has said while this one runs; a start of it that remembers less has files older than what
//! it said, and is refused.
//!
//! Proved: an item that comes is last, and only the oldest go for it, where there was no room (`MessageQueue::push`).
//! Items leave in order (`pop`). A thread that doesn't send what waits leaves it to one that has the stream and looks
//! again, or calls the sender (`turns`). A frame's head and rest are the next octets of the stream (`read_head`,
//! `read_rest`). A replica is taken for alike exactly where its digests are the own ones; else the first difference is
//! named (`greeting`, `meet`). A start that comes after all that its replica said isn't refused, and one that is
//! refused doesn't remember something that was said (`who_is_refused`).
#![tactic(auto)]

mod address;
mod at_once;
mod claim;
mod dialing;
mod framing;
mod laws;
mod meeting;
mod outbox;
mod past;
mod queue;
mod reading;
mod refusal;
mod sending;
mod terms;
mod turns;
mod weighted;
mod writing;

pub use address::Address;
pub use bytes::Bytes;
pub use claim::{CLAIM, Claim};
pub use dialing::{Dial, REFUSAL, SocketDialer, StreamState, WriteAtOnce};
pub use framing::{Framing, Spell};
pub use laws::{claims_are_read, who_is_refused};
pub use meeting::{HEADING, Heading, Met, greeting_heading, meet};
pub use outbox::{Outbox, Taken, Unsent, Waited};
pub use past::{Forgotten, Past, Reach};
pub use queue::MessageQueue;
pub use reading::{FrameEnd, read_head, read_more, read_rest};
pub use refusal::{read_refusal, refusal_octets, refusals_are_read};
pub use sending::{LinkTimes, send_all};
pub use terms::{Term, Terms};
pub use vr_wire::{
    Came, Cluster, FrameSizes, Frames, Gathering, Op, PeerMessage, WireError, heading, rest,
};
pub use weighted::Weighted;
pub use writing::{earlier_greeting, greeting};
