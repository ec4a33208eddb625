// Opens a node over its devices: starts it, makes its seats, and hands on what its start sends. Threads share it later
// (`opened`). Files and sockets are above.
ghost use Rattle.std.specs.Prelude.{◌≡◌, ◌<◌, ◌≤◌, true, false, length, All, Some, None, IfOk, OnOk};
ghost use Rattle.std.specs.Arc.{arc_value};
ghost use Rattle.dir_node.specs.NodeState.{IsMade, given, nothing_executed};
ghost use Rattle.dir_node.specs.Restarting.{IsRestarted};
ghost use Rattle.dir_node.specs.log_journal.journal.Frames.{recorded};
ghost use Rattle.dir_node.specs.view_store.Slots.{found};
ghost use Rattle.dir_seats.specs.Lists.{nothing_over};
ghost use Rattle.node_gate.specs.Identities.{identity_by, identity_of};
ghost use Rattle.node_gate.specs.Moved.{ExecutesDue};
ghost use Rattle.node_gate.specs.private.Identities.{IsReplicaOf};
ghost use Rattle.node_gate.specs.Starting.{IsPlain, MayStart, as_made, outcome_of_start, pair_of_start, state_of_start};

use crate::inbox::Inbox;
use crate::opened::{Opened, OpenedNode};
use crate::published::PublishedNode;
use dir_node::{Device, JournalDevice, Node, NodeConfig, NodeError, Op, Outputs};
use dir_seats::seats;
use replica_clock::Times;
use std::alloc::Global;
use std::sync::Wait;

/// How a node is opened.
#[derive(Clone, Copy)]
pub struct OpenOptions {
    /// Whether this is the first start of the replica's life.
    pub is_fresh: bool,
    /// How many seats it has, 1 to 32.
    pub seats: usize,
    /// When it moves by itself.
    pub times: Times,
}

/// The node of a first start.
fn start_first<D: Device + Drop, J: JournalDevice + Drop>(
    alloc: Global,
    device: D,
    journal: Option<J>,
    config: NodeConfig,
) -> Result<(Node<D, J>, Outputs<Op>), NodeError>
    requires within { config.index < config.count }
    ensures made { let finding = found config.cluster (D.seen device) in
        IfOk result (λ made. IsMade config (state_of_start true config.count finding)
        (pair_of_start true finding).restarts made.0) }
    ensures outputs { let finding = found config.cluster (D.seen device) in
        IfOk result (λ made. given made.0.replica made.1 ≡ outcome_of_start true config.count config.index finding) }
    ensures replica { IfOk result (λ made. IsReplicaOf config made.0) }
{
    match Node::fresh(alloc, device, journal, config) {
        Ok(made) => Ok(made),
        Err(refused) => Err(refused.error),
    }
}

/// The node of a later start.
fn start_again<D: Device + Drop, J: JournalDevice + Drop>(
    alloc: Global,
    device: D,
    journal: Option<J>,
    config: NodeConfig,
) -> Result<(Node<D, J>, Outputs<Op>), NodeError>
    requires within { config.index < config.count }
    ensures own { journal ≡ None → OnOk result (MayStart false (found config.cluster (D.seen device))) }
    ensures made { journal ≡ None → let finding = found config.cluster (D.seen device) in
        IfOk result (λ made. IsMade config (state_of_start false config.count finding)
        (pair_of_start false finding).restarts made.0) }
    ensures outputs { journal ≡ None → let finding = found config.cluster (D.seen device) in
        IfOk result (λ made. given made.0.replica made.1 ≡ outcome_of_start false config.count config.index finding) }
    ensures restarted { (j : J) → journal ≡ Some j →
        IfOk result (λ made. IsRestarted config (found config.cluster (D.seen device))
        (recorded (J.seen j)) made.0 made.1) }
    ensures replica { IfOk result (λ made. IsReplicaOf config made.0) }
    ensures nothing { IfOk result (λ made. made.0.executed ≡ nothing_executed config) }
{
    match Node::reopen(alloc, device, journal, config) {
        Ok(made) => Ok(made),
        Err(refused) => Err(refused.error),
    }
}

/// The node of a first or a later start. It has executed nothing yet.
fn start<D: Device + Drop, J: JournalDevice + Drop>(
    alloc: Global,
    device: D,
    journal: Option<J>,
    config: NodeConfig,
    is_fresh: bool,
) -> Result<(Node<D, J>, Outputs<Op>), NodeError>
    requires within { config.index < config.count }
    ensures own { IsPlain is_fresh journal → OnOk result (MayStart is_fresh (found config.cluster (D.seen device))) }
    ensures made { IsPlain is_fresh journal → let finding = found config.cluster (D.seen device) in
        IfOk result (λ made. IsMade config (state_of_start is_fresh config.count finding)
        (pair_of_start is_fresh finding).restarts made.0) }
    ensures outputs { IsPlain is_fresh journal → let finding = found config.cluster (D.seen device) in
        IfOk result (λ made. given made.0.replica made.1 ≡ outcome_of_start is_fresh config.count config.index
        finding) }
    ensures restarted { (j : J) → is_fresh ≡ false → journal ≡ Some j
        → IfOk result (λ made. IsRestarted config (found config.cluster (D.seen device)) (recorded (J.seen j)) made.0
        made.1) }
    ensures replica { IfOk result (λ made. IsReplicaOf config made.0) }
    ensures nothing { IfOk result (λ made. made.0.executed ≡ nothing_executed config) }
{
    if is_fresh {
        start_first(alloc, device, journal, config)
    } else {
        start_again(alloc, device, journal, config)
    }
}

/// The node of a first or a later start over a device, and its seats, which see what it has executed. What a seat takes
/// in memory is made first; the errors are those of the start. Where it goes on from a journal, it has executed what
/// that says is committed when it comes back, so that its clock and its threads begin after that.
pub fn open<'a, R: Wait, D: Device + Drop, J: JournalDevice + Drop>(
    rt: &'a R,
    alloc: Global,
    device: D,
    journal: Option<J>,
    config: NodeConfig,
    options: OpenOptions,
) -> Result<Opened<'a, R, D, J>, NodeError>
    requires within { config.index < config.count }
    requires seats { (0 < options.seats) × (options.seats ≤ 32) }

    // The replica starts for the first time, or from the pair that was found: what it sends is what such a start sends,
    // and its restarts are the pair's.
    ensures own { IsPlain options.is_fresh journal →
        OnOk result (MayStart options.is_fresh (found config.cluster (D.seen device))) }
    ensures outputs { IsPlain options.is_fresh journal → let finding = found config.cluster (D.seen device) in
        IfOk result (λ opened. given (state_of_start options.is_fresh config.count finding) opened.outputs ≡
        outcome_of_start options.is_fresh config.count config.index finding) }
    ensures restarts { IsPlain options.is_fresh journal →
        IfOk result (λ opened. opened.restarts ≡
        (pair_of_start options.is_fresh (found config.cluster (D.seen device))).restarts) }
    ensures made { IsPlain options.is_fresh journal → let finding = found config.cluster (D.seen device) in
        IfOk result (λ opened. IsMade config (state_of_start options.is_fresh config.count finding)
        (pair_of_start options.is_fresh finding).restarts (as_made config opened.node)) }

    // It is the configuration's replica, at that start, over the configuration's schema, root and index choice.
    ensures own_start { IfOk result (λ opened. identity_of opened.node ≡ identity_by config opened.restarts) }

    // A later start that keeps a journal goes on from it, or recovers and begins it, as its strings say.
    ensures restarted { (j : J) → options.is_fresh ≡ false → journal ≡ Some j
        → IfOk result (λ opened. IsRestarted config (found config.cluster (D.seen device)) (recorded (J.seen j))
        (as_made config opened.node) opened.outputs) }

    // It has executed what the start says is committed, or, for want of memory, a front of it.
    ensures executed { IfOk result (λ opened. ExecutesDue (as_made config opened.node) opened.node) }

    // There are as many seats as were asked for, and they have seen nothing.
    ensures count { IfOk result (λ opened. length opened.seats.items ≡ options.seats) }
    ensures seats { IfOk result (λ opened. All (λ seat. seat ≡ nothing_over (arc_value config.schema) config.indexes
        config.suffix) opened.seats.items) }
{
    let (publisher, seats) = seats(
        rt,
        alloc,
        &config.schema,
        &config.indexes,
        &config.suffix,
        options.seats,
    )?;
    let teller = publisher.teller()?;
    let has_journal = journal.is_some();
    let (node, outputs) = start(alloc, device, journal, config, options.is_fresh)?;
    let restarts = node.restarts();
    let mut published = PublishedNode::new(node, publisher);
    // Without a journal nothing is due. What is left for want of memory is executed after the first event.
    let _is_behind = published.execute_due(alloc);
    let inbox = if has_journal {
        Some(Inbox::new(alloc))
    } else {
        None
    };
    Ok(Opened {
        node: OpenedNode {
            published,
            teller,
            times: options.times,
            inbox,
        },
        seats,
        outputs,
        restarts,
    })
}
