//! Messages on their way from the node to other replicas: each goes into the queue of its receiver.
use node_gate::{Cluster, Op, Pace, PeerMessage, Peers, Send};
use server_threads::SharedParts;
use std::alloc::Global;
use std::sync::{Mutex, Wait};

/// The queues to all replicas of a cluster, and when state may be asked for again.
#[derive(Drop)]
pub struct PeerQueues<'a, R> {
    pub rt: &'a R,
    pub alloc: Global,
    pub cluster: Cluster,
    pub shared_parts: &'a SharedParts,
    /// State isn't asked for again while its answer may be on its way.
    pub asking: Mutex<Pace>,
}

impl<'a, R: Wait> PeerQueues<'a, R> {
    /// Puts a message into the queue to the replica of this index, at this moment. One that asks for state again too
    /// early is lost, as the network may lose it.
    fn post(&self, now: u64, to: u64, message: PeerMessage<Op>) {
        if matches!(message, PeerMessage::GetState { .. })
            && !self.asking.lock(self.rt).take_turn(now)
        {
            return;
        }
        self.shared_parts.post(self.rt, to, message);
    }

    /// Sends what was put into the queues, as far as it goes at once.
    pub fn send_posted(&self) {
        self.shared_parts
            .send_posted(self.rt, self.alloc, self.cluster);
    }

    /// Puts what a start of the node sends into the queues.
    pub fn post_all(&self, sends: Vec<Send<Op>>) {
        for send in sends {
            self.post(0, send.to, send.into_message());
        }
    }
}

/// The way to the queues, for what is sent at a moment.
#[derive(Drop)]
pub struct PeerQueuesAt<'a, R> {
    pub peer_queues: &'a PeerQueues<'a, R>,
    pub now: u64,
}

impl<'a, R: Wait> Peers for PeerQueuesAt<'a, R> {
    // What becomes of a message in a queue that threads share is not said.
    ghost takes = { λ before to message after. Unit {0} };

    fn send(&mut self, to: u64, message: PeerMessage<Op>) {
        self.peer_queues.post(self.now, to, message);
    }

    fn flush(&self) {
        self.peer_queues.send_posted();
    }
}
