//! The settings of a node, and the outputs of its calls. Plain data.

use crate::error::NodeError;
use log_journal::Device as JournalDevice;
use state_machine::{Indexes, Name, Op, Schema};
use std::alloc::AllocError;
use std::sync::Arc;
use view_store::{Cluster, Device};
use vr_state::message::Outputs;

/// What a node is made with. All replicas of a cluster have the same schema, root and count.
#[derive(Drop)]
pub struct NodeConfig {
    /// The schema, shared with whoever else has it.
    pub schema: Arc<Schema>,
    /// Which indexes this replica has. What is answered doesn't depend on it.
    pub indexes: Indexes,
    /// The name of the root.
    pub suffix: Name,
    /// The cluster that the stored pair is of.
    pub cluster: Cluster,
    /// The replica's index among all, from 0.
    pub index: u64,
    /// How many replicas there are.
    pub count: u64,
}

/// What an event at a node gives out.
#[derive(Drop)]
pub struct Handled {
    /// What the step sends and answers; its view is stored, and its notes are settled.
    pub outputs: Outputs<Op>,
    /// Whether committed records are left to be executed, for want of memory. The next event goes on with them.
    pub behind: bool,
}

/// What a batch of events at a node gives out.
#[derive(Drop)]
pub struct AllHandled {
    /// What each event sends and answers, in their order; none of one that was left out for want of memory.
    pub outputs: Vec<Result<Outputs<Op>, AllocError>>,
    /// Whether committed records are left to be executed, for want of memory. The next event goes on with them.
    pub behind: bool,
}

/// A start that was refused, and the devices.
#[derive(Drop)]
pub struct Refused<D: Device, J: JournalDevice> {
    /// Why it was.
    pub error: NodeError,
    /// The pair's device, to start with again.
    pub device: D,
    /// The journal's, where one was given.
    pub journal: Option<J>,
}
