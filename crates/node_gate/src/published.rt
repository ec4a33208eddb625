// A node and what its seats see of it. Takes events to the node, and shows the seats what it then has executed. Locks
// and clocks are above.
ghost use Rattle.std.specs.Prelude.{◌≡◌, ◌∷◌, [], IsTrue, IfOk, IfErr};
ghost use Rattle.dir_node.specs.NodeState.{IsSameNode};
ghost use Rattle.node_gate.specs.Moved.{IsLeftBy};
ghost use Rattle.node_gate.specs.private.Given.{IsGiven, HasAll};
ghost use Rattle.node_gate.specs.private.Batches.{HasHandledAll};
ghost use Rattle.node_gate.specs.private.Handled.{HasExecuted, HasHandled};

use crate::events::{execute_node, handle_node, handle_node_all};
use dir_node::{AllHandled, Device, Event, Handled, JournalDevice, Node, NodeError, Op};
use dir_seats::Publisher;
use std::alloc::Global;
use std::sync::Wait;

/// Which node a seat is of: there is one in a process.
pub struct Here;

/// A node and the publisher to its seats. What its seats see, and what they are to see next, is a beginning of what it
/// has executed.
pub struct PublishedNode<'a, R: Wait, D: Device, J: JournalDevice> {
    node: Node<D, J>,
    publisher: Publisher<Here, &'a R>,
    ghost shows: { IsGiven node.executed publisher },
}

// Not derived: see "What the gate takes" in docs/ARCHITECTURE.md.
impl<'a, R: Wait, D: Device + Drop, J: JournalDevice + Drop> Drop for PublishedNode<'a, R, D, J> {
    fn drop(self) {
        let PublishedNode {
            node: _,
            publisher: _,
        } = self;
    }
}

impl<'a, R: Wait, D: Device, J: JournalDevice> PublishedNode<'a, R, D, J> {
    /// A node, and the publisher to its seats.
    pub fn new(node: Node<D, J>, publisher: Publisher<Here, &'a R>) -> PublishedNode<'a, R, D, J>
        requires shows { IsGiven node.executed publisher }
        ensures { result.node ≡ node }
    {
        PublishedNode { node, publisher }
    }

    pub fn node(&self) -> &Node<D, J>
        ensures { result.now ≡ self.now.node }
    {
        &self.node
    }

    /// Hands an event to the node, and shows its seats what it then has executed. It is behind too where there was no
    /// memory to show all.
    pub fn handle(&mut self, alloc: Global, event: Event<Op>) -> Result<Handled, NodeError>
        ensures handled { IfOk result (λ h. HasHandled self.old.node event h self.new.node self.new.publisher) }
        ensures same { IsSameNode self.old.node self.new.node }
        ensures refused { IfErr result (λ e. IsLeftBy (event ∷ []) e self.old.node self.new.node) }
    {
        let Handled { outputs, behind } = handle_node(alloc, &mut self.node, event)?;
        let is_shown = self.show();
        Ok(Handled {
            outputs,
            behind: behind || !is_shown,
        })
    }

    /// Hands a batch of events to the node, and shows its seats what it then has executed. It is behind too where there
    /// was no memory to show all.
    pub fn handle_all(
        &mut self,
        alloc: Global,
        events: Vec<Event<Op>>,
    ) -> Result<AllHandled, NodeError>
        ensures handled { IfOk result (λ h. HasHandledAll self.old.node events.items h self.new.node
            self.new.publisher) }
        ensures same { IsSameNode self.old.node self.new.node }
        ensures refused { IfErr result (λ e. IsLeftBy events.items e self.old.node self.new.node) }
    {
        let AllHandled { outputs, behind } = handle_node_all(alloc, &mut self.node, events)?;
        let sees_all = self.show();
        Ok(AllHandled {
            outputs,
            behind: behind || !sees_all,
        })
    }

    /// Has the node execute what is committed, before any event, and shows its seats what it then has executed. Whether
    /// some of that is left for want of memory.
    pub fn execute_due(&mut self, alloc: Global) -> bool
        ensures executed { HasExecuted self.old.node result self.new.node self.new.publisher }
        ensures same { IsSameNode self.old.node self.new.node }
    {
        let behind = execute_node(alloc, &mut self.node);
        let sees_all = self.show();
        behind || !sees_all
    }

    /// Shows the seats what the node has executed and they don't see yet; whether they see all of it. What finds no
    /// memory is shown after the next event.
    fn show(&mut self) -> bool
        ensures node { self.new.node ≡ self.old.node }
        ensures all { IsTrue result → HasAll self.new.node.executed self.new.publisher }
    {
        if self.publisher.append(self.node.executed()).is_err() {
            return false;
        }
        if self.publisher.is_behind() && self.publisher.publish().is_err() {
            return false;
        }
        true
    }
}
