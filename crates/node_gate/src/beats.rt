// What the last beat of a node has sent, kept for the thread of the clock.
ghost use Rattle.node_gate.specs.Moved.{IsBeatOf};

use crate::identity::NodeIdentity;
use dir_node::{Op, Send};
use std::marker::PhantomData;

/// Copies of what a beat of the node with this identity has sent.
pub struct LastBeat<I: NodeIdentity> {
    sends: Vec<Send<Op>>,
    of: PhantomData<I>,
    ghost sent: { IsBeatOf I.own sends.items },
}

// Not derived: see "What the gate takes" in docs/ARCHITECTURE.md.
impl<I: NodeIdentity> Drop for LastBeat<I> {
    fn drop(self) {
        let LastBeat { sends: _, of: _ } = self;
    }
}

impl<I: NodeIdentity> LastBeat<I> {
    /// What a beat has sent.
    pub fn new(sends: Vec<Send<Op>>) -> LastBeat<I>
        requires { IsBeatOf I.own sends.items }
    {
        LastBeat {
            sends,
            of: PhantomData,
        }
    }

    /// The copies.
    pub fn into_sends(self) -> Vec<Send<Op>>
        ensures { IsBeatOf I.own result.items }
    {
        let LastBeat { sends, of: _ } = self;
        sends
    }
}
