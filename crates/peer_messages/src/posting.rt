//! Puts messages to other replicas into the queues of their receivers, and sends what can go at once.
use crate::parts::PeerParts;
use crate::short::is_short;
use crate::spelling::ShortFrames;
use crate::weighing::weight_of;
use peer_link::{Cluster, Op, PeerMessage};
use std::alloc::Global;
use std::sync::Wait;

impl<'a> PeerParts<'a> {
    /// Puts a message into the queue to the replica of this index, behind those that wait there. It takes no memory and
    /// waits for nothing but that queue's lock, which is held for no longer than a few steps. The thread that has
    /// posted messages calls `send_posted` next; the queue's own thread sends what that doesn't. Where the queue is
    /// full the oldest messages are lost, as the network may lose them. A message to nobody is lost, and so is a
    /// DOVIEWCHANGE, a log or a state for the same as one that is just being sent.
    pub fn post<R: Wait>(&self, rt: &R, to: u64, message: PeerMessage<Op>) {
        if let Some(outbox) = self.boxes.get(to as usize) {
            if self.progress.is_sending(rt, to, &message) {
                return;
            }
            let weight = weight_of(&message);
            if is_short(&message) {
                outbox.put_short(rt, message, weight);
            } else {
                outbox.put(rt, message, weight);
            }
            self.counters.queue(to);
        }
    }

    /// Sends the short messages that wait in each queue, as far as its stream takes them at once; else the queue's own
    /// thread is called. It waits for no replica.
    pub fn send_posted<R: Wait>(&self, rt: &R, alloc: Global, cluster: Cluster) {
        for (to, outbox) in self.boxes.iter().enumerate() {
            let mut spelling = ShortFrames {
                rt,
                alloc,
                parts: *self,
                cluster,
                to,
            };
            outbox.send_at_once(rt, alloc, &mut spelling);
        }
    }
}
