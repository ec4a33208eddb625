// A node that was opened, before threads share it. A start makes one; threads share what `OpenedNode::share` makes of
// it.
ghost use Rattle.std.specs.Prelude.{◌≡◌};
ghost use Rattle.node_gate.specs.Identities.{identity_of};

use crate::identity::NodeIdentity;
use crate::inbox::Inbox;
use crate::published::{Here, PublishedNode};
use crate::running::SharedNode;
use dir_node::{Device, JournalDevice, Node, Op, Outputs};
use dir_seats::{Seat, Teller};
use replica_clock::Times;
use std::marker::Model;
use std::sync::Wait;

/// A node that no other thread has yet, and what it is shared with. Contracts see it as its node.
pub struct OpenedNode<'a, R: Wait, D: Device, J: JournalDevice> {
    pub(crate) published: PublishedNode<'a, R, D, J>,
    pub(crate) teller: Teller<Here>,
    pub(crate) times: Times,
    /// Events that will wait for the thread that drives a node with a journal.
    pub(crate) inbox: Option<Inbox>,
}

// Not derived: see "What the gate takes" in docs/ARCHITECTURE.md.
impl<'a, R: Wait, D: Device + Drop, J: JournalDevice + Drop> Drop for OpenedNode<'a, R, D, J> {
    fn drop(self) {
        let OpenedNode {
            published: _,
            teller: _,
            times: _,
            inbox: _,
        } = self;
    }
}

impl<'a, R: Wait, D: Device, J: JournalDevice> Model for OpenedNode<'a, R, D, J> {
    ghost use Rattle.dir_node.specs.NodeState.{NodeValue};

    ghost Value = { NodeValue D J };

    ghost view = { λ o. o.published.node };
}

impl<'a, R: Wait, D: Device, J: JournalDevice> OpenedNode<'a, R, D, J> {
    /// The node.
    pub fn node(&self) -> &Node<D, J>
        ensures { result.now ≡ self.now }
    {
        self.published.node()
    }

    /// The node with this identity, for threads to share. Its clock begins at the moment 0.
    pub fn share<I: NodeIdentity>(self) -> SharedNode<'a, R, D, J, I>
        requires { identity_of self ≡ I.own }
    {
        let OpenedNode {
            published,
            teller,
            times,
            inbox,
        } = self;
        SharedNode::new(published, teller, times, inbox)
    }
}

/// What a start of a replica gives.
#[derive(Drop)]
pub struct Opened<'a, R: Wait, D: Device, J: JournalDevice> {
    pub node: OpenedNode<'a, R, D, J>,
    pub seats: Vec<Seat<Here>>,
    /// What the start sends.
    pub outputs: Outputs<Op>,
    /// Which start of the replica this is, counted from 1.
    pub restarts: u64,
}
