//! Queues messages to the other replicas, makes their frames, and keeps what is known of each replica.
//!
//! `parts` names what a server's threads share of this. `posting` puts a message into its replica's queue, and sends
//! short ones at once (`short`, `spelling`). `framing` makes frames in the thread that sends to a replica: one of each
//! message, or parts of 1 MiB where one can't hold it.
//! `reaching` dials another replica and says where it can't be reached. `progress` keeps how far each replica is;
//! `links` keeps on how many connections it is heard, and what it has said.
//!
//! Proved: what decides in these, as values. That is what a message weighs in a queue (`weighing`), which is short
//! (`short`), which answer is long and may go out (`answers`), which message is sent for the same as another
//! (`errands`) and how much a replica has said that it has committed (`saying`). So is who is heard by the first octets
//! that it sends (`senders`), which start of a replica is heard, and what of it is news (`link_table`), and what is
//! said of a replica that is dialed (`reachability`). Of the locks and atomics that hold these values, and of the
//! threads that ask them, safety alone is proved.
#![tactic(auto)]

mod answers;
mod errands;
mod framing;
mod link_table;
mod links;
mod parts;
mod posting;
mod progress;
mod reachability;
mod reaching;
mod saying;
mod senders;
mod short;
mod spelling;
mod telling;
mod weighing;

pub use framing::MessageFrames;
pub use link_table::Forgetful;
pub use links::Links;
pub use parts::{PeerOutbox, PeerParts};
pub use peer_link::{
    Address, Came, Claim, Cluster, Forgotten, FrameEnd, Gathering, HEADING, Heading, LinkTimes,
    Met, Op, Outbox, PeerMessage, SocketDialer, Term, Terms, WireError, meet, read_head, read_more,
    read_rest, refusal_octets, rest, send_all,
};
pub use progress::PeerProgress;
pub use reaching::TellingDialer;
pub use replica_clock::Lack;
pub use senders::{BEHIND_LENGTH, Senders, refusal_of};
pub use server_monitor::{Counters, Reporter};
pub use telling::text_of_forgotten;
pub use vr_short::{NOTE_REST, note_number};
