//! Cuts a stream of octets, which comes in any pieces, into whole messages.
//!
//! Takes a stream in pieces and hands out its messages. A piece costs its own octets and those of the messages that it
//! completes. Of a message that isn't whole, only the header is looked at again, at most six octets.
//!
//! Proved: however a stream is cut, its messages are handed out, and a fault comes exactly where the stream stops
//! (`Framer::feed`, `next`, `holds_part`, `one_reading`, `any_pieces`).
#![tactic(auto)]

mod cutting;
mod fault;
mod finding;
mod framer;
mod laws;
mod weighing;

pub use fault::FrameFault;
pub use framer::Framer;
pub use laws::{any_pieces, one_reading};
pub use ldap_msg::{Message, ProtocolOp, Request, RequestKind};
