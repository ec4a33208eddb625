// What the lock holds: the node that threads share, its clock, and whether those who wait are to go on. Locks and
// threads are above.
ghost use Rattle.std.specs.Prelude.{◌≡◌, ◌∷◌, [], IfOk, IfErr};
ghost use Rattle.dir_node.specs.vr_state.declared.event.Event.TheVariants as event;
ghost use Rattle.node_gate.specs.Moved.{IsLeftBy};
ghost use Rattle.node_gate.specs.private.Batches.{HasHandledAll};
ghost use Rattle.node_gate.specs.private.Handled.{HasHandled};
ghost use Rattle.node_gate.specs.Identities.{identity_of};
ghost use Rattle.node_gate.specs.private.Shared.{standing_to_sessions};

use crate::arrival::Arrival;
use crate::ending::Request;
use crate::identity::NodeIdentity;
use crate::inbox::HeardSign;
use crate::published::PublishedNode;
use crate::telling::{told_by_step, told_by_steps};
use crate::waiters::Called;
pub use dir_node::Standing;
use dir_node::{
    AllHandled, Device, Event, Handled, JournalDevice, Node, NodeError, Op, Outcome, Status,
};
use replica_clock::{Asked, ReplicaClock, Sign, sign_of};
use std::alloc::Global;
use std::marker::PhantomData;
use std::sync::Wait;

/// What a node does at a moment.
#[derive(Clone, Copy, Debug, PartialEq, Eq)]
pub struct Pulse {
    pub standing: Standing,
    pub view_number: u64,
    /// The number of the last update that it has made.
    pub last_update: u64,
    /// How many entries its directory has, and how many records its log.
    pub entries: u64,
    pub log_length: u64,
    /// Whether the node has stopped for good, its device having failed.
    pub is_halted: bool,
}

impl Pulse {
    /// Whether the other has the same standing in the same view.
    pub fn is_like(&self, other: &Pulse) -> bool {
        self.standing == other.standing && self.view_number == other.view_number
    }
}

/// What decides how an update ends that waits for its outcome: while this stays as it is, what is pending is pending,
/// but where its client asks for another update meanwhile.
#[derive(Clone, Copy, Debug, PartialEq, Eq)]
pub struct Prospect {
    executed: u64,
    view_number: u64,
    standing: Standing,
    is_halted: bool,
}

/// The node with this identity, what its seats see of it, its clock, and whether those who wait are to go on.
pub struct LockedNode<'a, R: Wait, D: Device, J: JournalDevice, I: NodeIdentity> {
    published: PublishedNode<'a, R, D, J>,
    clock: ReplicaClock,
    pub is_stopping: bool,
    /// How many wait for the outcome of an update.
    pub waiting: u64,
    /// How many of the events that were posted the node has had.
    pub had: u64,
    /// How many records its backups were told to be committed, or are told with its next beat.
    told: u64,
    of: PhantomData<I>,
    ghost stays: { identity_of published.node ≡ I.own },
}

// Not derived: see "What the gate takes" in docs/ARCHITECTURE.md.
impl<'a, R: Wait, D: Device + Drop, J: JournalDevice + Drop, I: NodeIdentity> Drop
    for LockedNode<'a, R, D, J, I> {
    fn drop(self) {
        let LockedNode {
            published: _,
            clock: _,
            is_stopping: _,
            waiting: _,
            had: _,
            told: _,
            of: _,
        } = self;
    }
}

/// A replica's status, where it stands so.
pub fn status_of(standing: Standing) -> Status {
    match standing {
        Standing::Primary | Standing::Backup { .. } => Status::Normal,
        Standing::Changing => Status::ViewChange,
        Standing::Recovering => Status::Recovering,
    }
}

impl<'a, R: Wait, D: Device, J: JournalDevice, I: NodeIdentity> LockedNode<'a, R, D, J, I> {
    /// The node with this identity, and its clock.
    pub fn new(
        published: PublishedNode<'a, R, D, J>,
        clock: ReplicaClock,
    ) -> LockedNode<'a, R, D, J, I>
        requires { identity_of published.node ≡ I.own }
    {
        LockedNode {
            published,
            clock,
            is_stopping: false,
            waiting: 0,
            had: 0,
            told: 0,
            of: PhantomData,
        }
    }

    pub fn node(&self) -> &Node<D, J>
        ensures { result.now ≡ self.now.published.node }
    {
        self.published.node()
    }

    /// What the node does now.
    pub fn pulse(&self) -> Pulse {
        let node = self.node();
        Pulse {
            standing: node.standing(),
            view_number: node.view_number(),
            last_update: node.executed_len() as u64,
            entries: node.store().tree().len(),
            log_length: node.log_len(),
            is_halted: node.is_halted(),
        }
    }

    /// What those look at who wait for an outcome.
    pub fn prospect(&self) -> Prospect {
        let node = self.node();
        Prospect {
            executed: node.executed_len() as u64,
            view_number: node.view_number(),
            standing: node.standing(),
            is_halted: node.is_halted(),
        }
    }

    /// Whose outcomes may have come since then: all may, where it isn't certain that those have not of updates that
    /// weren't executed.
    pub fn called_since(&self, before: Prospect, is_certain: bool) -> Called {
        if self.waiting == 0 {
            return Called::nobody();
        }
        if !is_certain {
            return Called::all();
        }
        let now = self.prospect();
        let executed = Prospect {
            executed: now.executed,
            ..before
        };
        let log = self.node().log();
        match log.get(before.executed as usize..now.executed as usize) {
            Some(updates) if now == executed => Called::for_updates(updates),
            _ => Called::all(),
        }
    }

    /// Whether each of so many requests that were handed over since the log had this length is in it now: a primary's
    /// log grows by nothing else.
    pub fn has_appended(&self, requests: u64, length: u64) -> bool {
        let node = self.node();
        node.standing() == Standing::Primary && node.log_len() == length.saturating_add(requests)
    }

    /// How the node stands to sessions: one that went on from its journal is as one that recovers, until it has
    /// committed as much as it may have shown before.
    pub fn standing(&self) -> Standing
        ensures { result ≡ standing_to_sessions self.now.published.node }
    {
        let node = self.node();
        if node.is_caught_up() {
            node.standing()
        } else {
            Standing::Recovering
        }
    }

    /// When the node's clock wants to be asked.
    pub fn ask_at(&self) -> u64 {
        self.clock.ask_at()
    }

    /// Hands an event to the node, and shows its seats what it then has executed. It is behind too where there was no
    /// memory to show all.
    pub fn handle(&mut self, alloc: Global, event: Event<Op>) -> Result<Handled, NodeError>
        ensures handled { IfOk result (λ h. HasHandled self.old.published.node event h self.new.published.node
            self.new.published.publisher) }
        ensures refused { IfErr result (λ e. IsLeftBy (event ∷ []) e self.old.published.node self.new.published.node) }
    {
        let handled = self.published.handle(alloc, event)?;
        self.told = self.told.max(told_by_step(&handled.outputs));
        Ok(handled)
    }

    /// Hands a batch of events to the node, and shows its seats what it then has executed. It is behind too where there
    /// was no memory to show all.
    pub fn handle_all(
        &mut self,
        alloc: Global,
        events: Vec<Event<Op>>,
    ) -> Result<AllHandled, NodeError>
        ensures handled { IfOk result (λ h. HasHandledAll self.old.published.node events.items h
            self.new.published.node self.new.published.publisher) }
        ensures refused { IfErr result (λ e. IsLeftBy events.items e self.old.published.node self.new.published.node) }
    {
        let handled = self.published.handle_all(alloc, events)?;
        self.told = self.told.max(told_by_steps(handled.outputs.as_slice()));
        Ok(handled)
    }

    /// The clock is told of the messages that were heard, and of what the node does after them.
    pub fn hear_all(&mut self, heard: &[HeardSign], now: u64)
        ensures published { self.new.published ≡ self.old.published }
    {
        self.note(now);
        for one in heard {
            self.clock.hear(one.from, one.sign, one.at);
        }
    }

    /// Hands the message of another replica to the node, and tells its clock of it.
    pub fn hear(&mut self, alloc: Global, arrival: Arrival) -> Result<Handled, NodeError>
        ensures handled { IfOk result (λ h. HasHandled self.old.published.node
            (event.Message arrival.from arrival.message) h self.new.published.node self.new.published.publisher) }
        ensures refused { IfErr result (λ e. IsLeftBy (event.Message arrival.from arrival.message ∷ []) e
            self.old.published.node self.new.published.node) }
    {
        let Arrival { from, message, at } = arrival;
        let sign = sign_of(&message);
        let handled = self.handle(alloc, Event::Message { from, message });
        self.note(at);
        self.clock.hear(from, sign, at);
        handled
    }

    /// A part of a long message of another replica has come.
    pub fn hear_part(&mut self, from: u64, now: u64)
        ensures published { self.new.published ≡ self.old.published }
    {
        self.clock.hear(from, Sign::Part, now);
    }

    /// A part of a long message was taken by another replica.
    pub fn hear_taken(&mut self, to: u64, now: u64)
        ensures published { self.new.published ≡ self.old.published }
    {
        self.clock.hear(to, Sign::Taken, now);
    }

    /// Asks the node's clock what is due.
    pub fn ask(&mut self, now: u64) -> Asked
        ensures published { self.new.published ≡ self.old.published }
    {
        self.note(now);
        self.clock.ask(now)
    }

    /// The clock is told what the node does. Where all of a primary's records are committed and no message has told the
    /// backups so, the next beat comes soon; the PREPARE of a later record would tell them itself.
    pub fn note(&mut self, now: u64)
        ensures published { self.new.published ≡ self.old.published }
    {
        let node = self.published.node();
        let view_number = node.view_number();
        let standing = node.standing();
        let committed = node.executed_len() as u64;
        self.clock.note(view_number, status_of(standing), now);
        let is_settled = node.log_len() == committed;
        if standing == Standing::Primary && is_settled && self.told < committed {
            self.told = committed;
            self.clock.hurry(now);
        }
    }

    /// Whether somebody waits for what becomes of a request.
    pub fn is_awaited(&self, request: &Request) -> bool {
        if self.is_stopping {
            return false;
        }
        if self.had < request.event {
            return true;
        }
        match self.node().outcome(request.client, request.number) {
            Outcome::Pending => true,
            Outcome::Done {
                number: _,
                reply: _,
            } => false,
            Outcome::Stale => false,
            Outcome::Lost => false,
        }
    }
}
