// A message of another replica as it arrives. Plain data.
use dir_node::{Op, PeerMessage};

/// A message of another replica, and when it came.
#[derive(Drop)]
pub struct Arrival {
    /// The index of the replica that sent it.
    pub from: u64,
    pub message: PeerMessage<Op>,
    /// The moment at which it came, on the node's clock.
    pub at: u64,
}
