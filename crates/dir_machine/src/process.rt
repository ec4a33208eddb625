//! The process of one replica.

use crate::events::Fates;
use dir_node::Node;

/// A node over devices in memory.
pub type MemoryNode = Node<view_store::MemoryDevice, journal::MemoryDevice>;

/// What the devices of a process hold that isn't up.
#[derive(Drop)]
pub struct Left {
    /// The octets of the pair's device.
    pub image: Vec<u8>,
    /// Those of the journal's, where there is one.
    pub journal: Option<Vec<u8>>,
}

/// The process of one replica.
#[derive(Drop)]
pub enum Process {
    /// No start of it has succeeded; the pair's device holds these octets.
    Unborn { image: Vec<u8> },
    /// It is up; what no sync has settled when a device fails has these fates.
    Up { node: MemoryNode, fates: Fates },
    /// It ended; its devices hold this.
    Down { left: Left },
}
