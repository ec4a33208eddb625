// An event at a node, as a publisher needs it told: what was executed before is a beginning of what is after.
ghost use Rattle.std.specs.Prelude.{◌≡◌, ◌∷◌, [], IfOk, IfErr, length};
ghost use Rattle.dir_node.specs.state_machine.Executing.{due_after};
ghost use Rattle.dir_node.specs.NodeState.{CatchesUp, IsSameNode, given};
ghost use Rattle.dir_node.specs.Handling.{MakesSteps};
ghost use Rattle.dir_node.specs.vr_state.Step.{step as step_of};
ghost use Rattle.node_gate.specs.Moved.{IsLeftBy};
ghost use Rattle.node_gate.specs.dir_seats.Lists.{IsBeginning};

use dir_node::{AllHandled, Device, Event, Handled, JournalDevice, Node, NodeError, Op};
use std::alloc::Global;

/// Hands an event to a node.
pub fn handle_node<D: Device, J: JournalDevice>(
    alloc: Global,
    node: &mut Node<D, J>,
    event: Event<Op>,
) -> Result<Handled, NodeError>
    ensures begins { IsBeginning node.old.executed node.new.executed }
    ensures step { IfOk result (λ h. given node.new.replica h.outputs ≡ step_of node.old.count node.old.index
        node.old.replica event) }
    ensures executed { IfOk result (λ h. CatchesUp h.behind node.old.executed.records
        (due_after (length node.old.executed.records) node.new.replica.commit_number node.new.replica.log)
        node.new.executed.records) }
    ensures same { IsSameNode node.old node.new }
    ensures refused { IfErr result (λ e. IsLeftBy (event ∷ []) e node.old node.new) }
{
    node.handle(alloc, event)
}

/// Hands a batch of events to a node.
pub fn handle_node_all<D: Device, J: JournalDevice>(
    alloc: Global,
    node: &mut Node<D, J>,
    events: Vec<Event<Op>>,
) -> Result<AllHandled, NodeError>
    ensures begins { IsBeginning node.old.executed node.new.executed }
    ensures steps { IfOk result (λ h. MakesSteps node.old.count node.old.index node.old.replica events.items
        h.outputs.items node.new.replica) }
    ensures executed { IfOk result (λ h. CatchesUp h.behind node.old.executed.records
        (due_after (length node.old.executed.records) node.new.replica.commit_number node.new.replica.log)
        node.new.executed.records) }
    ensures same { IsSameNode node.old node.new }
    ensures refused { IfErr result (λ e. IsLeftBy events.items e node.old node.new) }
{
    node.handle_all(alloc, events)
}

/// Has a node execute what is committed, before any event.
pub fn execute_node<D: Device, J: JournalDevice>(alloc: Global, node: &mut Node<D, J>) -> bool
    ensures begins { IsBeginning node.old.executed node.new.executed }
    ensures executed { CatchesUp result node.old.executed.records
        (due_after (length node.old.executed.records) node.old.replica.commit_number node.old.replica.log)
        node.new.executed.records }
    ensures nothing_else { node.new ≡ record node.old { executed = node.new.executed } }
    ensures same { IsSameNode node.old node.new }
{
    node.execute_due(alloc)
}
