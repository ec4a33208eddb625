//! The node before an event and after it, for clauses alone.
ghost use Rattle.std.specs.Prelude.{◌≡◌};

use dir_node::{Device, Event, JournalDevice, Node, NodeError, Op};
use std::snapshot::Snapshot;

/// The node as the lock held it before an event, or a batch of events, and after it. It has no octets.
pub struct Moved<D: Device, J: JournalDevice> {
    pub before: Snapshot<Node<D, J>>,
    pub after: Snapshot<Node<D, J>>,
}

// Not derived: see "What the gate takes" in docs/ARCHITECTURE.md.
impl<D: Device, J: JournalDevice> Drop for Moved<D, J> {
    fn drop(self) {
        let Moved {
            before: _,
            after: _,
        } = self;
    }
}

/// An event that was given to a node, and what it made of the node; none where it waits for the thread that drives the
/// node. It has no octets but whether it waits.
pub struct Handed<D: Device, J: JournalDevice> {
    pub event: Snapshot<Event<Op>>,
    pub moved: Option<Moved<D, J>>,
}

// Not derived: see "What the gate takes" in docs/ARCHITECTURE.md.
impl<D: Device, J: JournalDevice> Drop for Handed<D, J> {
    fn drop(self) {
        let Handed { event: _, moved: _ } = self;
    }
}

impl<D: Device, J: JournalDevice> Handed<D, J> {
    /// The event, and what it made of the node.
    pub(crate) fn into_parts(self) -> (Snapshot<Event<Op>>, Option<Moved<D, J>>)
        ensures event { result.0 ≡ self.event }
        ensures moved { result.1 ≡ self.moved }
    {
        let Handed { event, moved } = self;
        (event, moved)
    }
}

/// What came of an event that the clock called for.
pub struct Acted<D: Device, J: JournalDevice> {
    pub done: Result<(), NodeError>,
    /// What it made of the node, for clauses alone.
    pub moved: Moved<D, J>,
}

// Not derived: see "What the gate takes" in docs/ARCHITECTURE.md.
impl<D: Device, J: JournalDevice> Drop for Acted<D, J> {
    fn drop(self) {
        let Acted { done: _, moved: _ } = self;
    }
}
