//! Reads and writes frames, the messages between replicas as octets.
//!
//! The frames between replicas. `Frames` defines how a message is spelled, `Cutting` what is cut from the front of
//! octets, `Payloads` which updates payloads spell; callers see the one relation `IsFrame cluster sender message
//! octets`. `cutting`, `logs` and `bodies` cut a frame, `payloads` reads its updates. `reading` has the whole and asks
//! last whose cluster it is, so E24 is said of whole frames alone. `fitting` looks whether a message can be spelled;
//! `putting` and `writing` write it into one buffer that begins with room for the length. `parts` and `gathering` take
//! apart what one frame can't hold.
//!
//! Reading goes over a log twice. The first pass makes a list of places, about 50 octets a record, with room for as
//! many records as the octets may have (29 at least each). The second makes the updates, with one allocation for the
//! log, two for each update, and those of reading it, which are given back. In writing, the octets of a payload are
//! copied as they are.
//!
//! Proved: a message and its frame are each other's, for one cluster; what is no frame is refused, another cluster's by
//! a name of its own (`read`, `write`, `rest`, `is_frame`). Whatever a message's numbers are, what is written of it is
//! a frame of it, or parts that say it (`write`, `Frames::of`). A frame belongs to one message and begins no other
//! (`one_frame`, `no_beginning`). Parts give their message, and nothing else does (`Frames`, `Gathering`,
//! `parts_give_message`, `only_parts_give_message`).
#![tactic(auto)]

mod bodies;
mod cutting;
mod error;
mod fitting;
mod gathering;
mod headings;
mod labels;
mod laws;
mod logs;
mod octets;
mod part_laws;
mod parts;
mod payloads;
mod portions;
mod putting;
mod reading;
mod writing;

pub use error::WireError;
pub use gathering::{Came, Gathering};
pub use headings::heading;
pub use laws::{is_frame, no_beginning, one_frame};
pub use ldap_op::Op;
pub use part_laws::{frames_give_message, is_saying, only_parts_give_message, parts_give_message};
pub use parts::{FrameSizes, Frames};
pub use reading::{read, rest};
pub use view_store::Cluster;
pub use vr_state::message::PeerMessage;
pub use writing::write;
