//! Who is handed what other replicas send. A trait.
use peer_messages::{Op, PeerMessage};

/// Who is handed what other replicas send.
pub trait MessageHandler {
    /// Hands on a message of the replica of this index, with the number that was noted before it, if one was; whether
    /// the node goes on. A message that finds no memory is lost, as the network may lose one, and the node goes on.
    fn hear(&self, from: u64, message: PeerMessage<Op>, noted: Option<u64>) -> bool;

    /// Takes note that a part of a long message of the replica of this index has come.
    fn hear_part(&self, from: u64);
}
