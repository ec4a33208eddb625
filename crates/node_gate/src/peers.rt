// The way to the other replicas. A trait.
ghost use Rattle.std.specs.Prelude.{ℕ};
ghost use Rattle.dir_node.specs.dir_store.ldap_op.Values.{OpValue};
ghost use Rattle.dir_node.specs.vr_state.declared.message.PeerMessage.{PeerMessage};
ghost use Rattle.node_gate.specs.Sent.{TakesAll};

use dir_node::{Op, PeerMessage, Send};

/// What takes messages to other replicas. `send` is called inside the node's lock, in the order of the steps: so it
/// never waits for a replica, and makes no frame. A message may be lost on its way.
pub trait Peers {
    // What is taken, for whom, and what the way is after it.
    ghost takes: { Self → ℕ → PeerMessage OpValue → Self → Type 0 };

    /// Sends a message to the replica of this index.
    fn send(&mut self, to: u64, message: PeerMessage<Op>)
        ensures { takes self.old to message self.new };

    /// Has go on their way the messages that were taken. It is called once the node's lock is free again, and waits for
    /// no replica either.
    fn flush(&self);
}

/// Hands over what a step sends, in the step's order.
pub fn send_all<P: Peers>(peers: &mut P, sends: Vec<Send<Op>>)
    ensures { TakesAll P.takes peers.old sends.items peers.new }
{
    for send in sends {
        peers.send(send.to, send.into_message());
    }
}
