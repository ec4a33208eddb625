// Tells how a request for an update ended at a node.
ghost use Rattle.dir_seats.specs.directory_api.View.{ended_view};
ghost use Rattle.dir_node.specs.Outcomes.{outcome_of};
ghost use Rattle.node_gate.specs.Shared.{EndsAs};

use dir_node::{Client, Device, JournalDevice, Node, Outcome};
use dir_seats::Ended;
use std::alloc::Global;

/// A client's request for an update, once a node has it.
#[derive(Clone, Copy)]
pub struct Request {
    pub client: Client,
    /// The client's number for it.
    pub number: u64,
    /// Which of the events that were posted it is, from 1 on; 0 where none are.
    pub event: u64,
}

/// How a client's request of this number ended; one that is still to come counts as lost.
pub fn ended_at<D: Device, J: JournalDevice>(
    alloc: Global,
    node: &Node<D, J>,
    client: Client,
    number: u64,
) -> Ended
    ensures { EndsAs (outcome_of node.now client number) (ended_view result) }
{
    match node.outcome(client, number) {
        Outcome::Done { number, reply } => match reply.copy(alloc) {
            Ok(reply) => Ended::Done { number, reply },
            Err(_) => Ended::NoMemory,
        },
        Outcome::Stale => Ended::Stale,
        Outcome::Pending | Outcome::Lost => Ended::Lost,
    }
}
