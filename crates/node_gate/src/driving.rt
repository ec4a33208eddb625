//! A node with a journal, driven by one thread: it takes all events that wait at once, so that one sync settles them
//! all, and only then shows the seats what was executed and hands over what is sent.
ghost use Rattle.std.specs.Prelude.{◌≡◌, ◌∷◌, [], IfErr, IfNone, IfOk, IfSome, MatchOption, OnOk, Some};
ghost use Rattle.dir_node.specs.vr_state.declared.event.Event.TheVariants as event;
ghost use Rattle.node_gate.specs.Batches.{left_out, left_out_in, sends_at, sends_in, sends_of};
ghost use Rattle.node_gate.specs.Moved.{AreOf, HasRefused, HasStepped, HasSteppedAll, IsBeatOf};
ghost use Rattle.node_gate.specs.private.Batches.{IsBeatAt};
ghost use Rattle.node_gate.specs.Sent.{TakesAll};
ghost use Rattle.node_gate.specs.Identities.{identity_of};
ghost use Rattle.vr_short.specs.Short.{taken_as};

use crate::arrival::Arrival;
use crate::beats::LastBeat;
use crate::held::{LockedNode, Pulse};
use crate::identity::NodeIdentity;
use crate::inbox::{EventBatch, Inbox};
use crate::moved::{Handed, Moved};
use crate::peers::Peers;
use crate::running::{SharedNode, copies, send_outputs};
use crate::waiters::Called;
use dir_node::{Device, Event, JournalDevice, Node, NodeError, Op, Outputs, PeerMessage, Send};
use replica_clock::{Asked, Due};
use std::alloc::{AllocError, Global};
use std::snapshot::Snapshot;
use std::sync::Wait;
use vr_short::fill;

/// What events give out, or that one was left out for want of memory.
type Given = Result<Outputs<Op>, AllocError>;

/// What came of a batch of events.
pub struct Batched {
    /// How many of them were left out for want of memory.
    pub left_out: u64,
    /// What each of them gave, for clauses alone: it has no octets.
    pub outputs: Snapshot<Vec<Given>>,
}

// Not derived: see "What the gate takes" in docs/ARCHITECTURE.md.
impl Drop for Batched {
    fn drop(self) {
        let Batched {
            left_out: _,
            outputs: _,
        } = self;
    }
}

/// Whether a node notes nothing in its journal, whenever it hears this message.
fn notes_nothing(message: &PeerMessage<Op>) -> bool {
    matches!(message, PeerMessage::PrepareOk { .. })
}

/// Copies of what the event at this place has sent; none where there is none, or no memory.
fn copies_at(alloc: Global, outputs: &[Given], place: Option<usize>) -> Option<Vec<Send<Op>>>
    ensures { IfSome result (λ c. sends_at place outputs.now ≡ Some c.items) }
{
    match outputs.get(place?) {
        Some(Ok(given)) => copies(alloc, given.sends.as_slice()).ok(),
        _ => None,
    }
}

/// The place of a beat among these events, if it is one.
fn place_of_beat(events: &[Event<Op>], place: Option<usize>) -> Option<usize>
    ensures { IsBeatAt result events.now }
{
    match events.get(place?) {
        Some(Event::Beat) => place,
        _ => None,
    }
}

/// Hands over what a step sends; 1 where it was left out, else 0.
fn send_given<P: Peers>(peers: &mut P, given: Given) -> u64
    ensures taken { TakesAll P.takes peers.old (sends_in given) peers.new }
    ensures left_out { result ≡ left_out_in given }
{
    match given {
        Ok(outputs) => {
            send_outputs(peers, outputs);
            0
        }
        Err(_) => 1,
    }
}

/// Hands over what steps send, in the order of the steps; how many were left out.
fn send_each<P: Peers>(peers: &mut P, outputs: Vec<Given>) -> u64
    ensures taken { TakesAll P.takes peers.old (sends_of outputs.items) peers.new }
    ensures left_out { result ≡ left_out outputs.items }
{
    // prover: the number fits.
    let _most = outputs.len();
    let mut left_out = 0;
    for given in outputs {
        left_out += send_given(peers, given);
    }
    left_out
}

/// Hands a batch of events to the node, and over what its steps send; copies of what the event at this place has sent.
fn take_all<R: Wait, D: Device, J: JournalDevice, I: NodeIdentity, P: Peers>(
    alloc: Global,
    held: &mut LockedNode<'_, R, D, J, I>,
    peers: &mut P,
    events: Vec<Event<Op>>,
    beat_at: Option<usize>,
) -> Result<(Batched, Option<LastBeat<I>>), NodeError>
    ensures stepped { IfOk result (λ done. HasSteppedAll P.takes events.items done.0.outputs.value.items
        held.old.published.node held.new.published.node peers.old peers.new) }
    ensures left_out { IfOk result (λ done. done.0.left_out ≡ left_out done.0.outputs.value.items) }
    ensures refused { IfErr result (λ e. HasRefused events.items e held.old.published.node held.new.published.node
        peers.old peers.new) }
{
    let place = place_of_beat(events.as_slice(), beat_at);
    let handled = held.handle_all(alloc, events)?;
    let outputs = Snapshot::of(&handled.outputs);
    let beat = match copies_at(alloc, handled.outputs.as_slice(), place) {
        Some(sends) => Some(LastBeat::new(sends)),
        None => None,
    };
    let left_out = send_each(peers, handled.outputs);
    Ok((Batched { left_out, outputs }, beat))
}

impl<'a, R: Wait, D: Device, J: JournalDevice, I: NodeIdentity> SharedNode<'a, R, D, J, I> {
    /// How many records the journal told of the log, where the node is still to catch up with them.
    pub fn resumed(&self, rt: &R) -> Option<u64> {
        let held = self.held.lock(rt);
        if held.node().is_caught_up() {
            None
        } else {
            Some(held.node().log_len())
        }
    }

    /// Whether the node has committed as much as its journal told when it went on from it.
    pub fn is_caught_up(&self, rt: &R) -> bool {
        self.held.lock(rt).node().is_caught_up()
    }

    /// Hands an event to the node, or posts it where another thread drives the node; which of the events that were
    /// posted it is, from 1 on, and 0 where it wasn't. Its errors are the node's. For clauses alone it gives the event,
    /// and what that made of the node where it wasn't posted.
    pub fn give<P: Peers>(
        &self,
        rt: &R,
        alloc: Global,
        peers: &mut P,
        event: Event<Op>,
    ) -> (Result<u64, NodeError>, Handed<D, J>)
        ensures given { result.1.event.value ≡ event }
        ensures own { IfSome result.1.moved (λ m. AreOf I.own m.before.value m.after.value) }
        ensures stepped { OnOk result.0 (IfSome result.1.moved (λ m. HasStepped P.takes event m.before.value
            m.after.value peers.old peers.new)) }
        ensures refused { IfErr result.0 (λ e. IfSome result.1.moved (λ m. HasRefused (event ∷ []) e m.before.value
            m.after.value peers.old peers.new)) }
        ensures posted { MatchOption result.1.moved (peers.new ≡ peers.old)
            (λ m. IfOk result.0 (λ number. number ≡ 0)) }
    {
        let given = Snapshot::of(&event);
        match self.inbox_to_post(rt) {
            Some(inbox) => {
                let handed = Handed {
                    event: given,
                    moved: None,
                };
                match inbox.post(rt, event) {
                    Ok(number) => (Ok(number), handed),
                    Err(error) => (Err(error), handed),
                }
            }
            None => {
                let (done, moved) = self.handle(rt, alloc, peers, event);
                self.end_driving(rt, &done);
                let handed = Handed {
                    event: given,
                    moved: Some(moved),
                };
                match done {
                    Ok(()) => (Ok(0), handed),
                    Err(error) => (Err(error), handed),
                }
            }
        }
    }

    /// Where an event is to be posted; none where its thread hands it to the node, and ends that by `end_driving`.
    fn inbox_to_post(&self, rt: &R) -> Option<&Inbox> {
        let inbox = self.inbox.as_ref()?;
        if inbox.begin_driving(rt) {
            return None;
        }
        Some(inbox)
    }

    /// Where a message is to be posted; none where its thread hands it to the node, and ends that by `end_driving`.
    fn inbox_to_post_message(&self, rt: &R, message: &PeerMessage<Op>) -> Option<&Inbox> {
        if notes_nothing(message) {
            return self.inbox_to_post(rt);
        }
        self.inbox.as_ref()
    }

    /// A thread that has brought an event has handed it to the node, with this result.
    fn end_driving(&self, rt: &R, done: &Result<(), NodeError>) {
        if let Some(inbox) = &self.inbox {
            if let Err(error) = done {
                if *error != NodeError::NoMemory {
                    inbox.fail(rt, *error);
                }
            }
            inbox.end_driving(rt);
        }
    }

    /// Why the node has stopped, where it did so at an event that no thread of its own has handed to it.
    pub fn failure(&self, rt: &R) -> Option<NodeError> {
        self.inbox.as_ref()?.failure(rt)
    }

    /// Hands the message of another replica to the node, or posts it where another thread drives the node, or where the
    /// node may note something of it in its journal: a disk that hangs holds up nobody who reads messages. For clauses
    /// alone it gives what the message made of the node where it wasn't posted.
    pub fn give_message<P: Peers>(
        &self,
        rt: &R,
        alloc: Global,
        peers: &mut P,
        arrival: Arrival,
    ) -> (Result<(), NodeError>, Option<Moved<D, J>>)
        ensures own { IfSome result.1 (λ m. AreOf I.own m.before.value m.after.value) }
        ensures stepped { OnOk result.0 (IfSome result.1
            (λ m. HasStepped P.takes (event.Message arrival.from arrival.message) m.before.value m.after.value
            peers.old peers.new)) }
        ensures refused { IfErr result.0
            (λ e. IfSome result.1 (λ m. HasRefused (event.Message arrival.from arrival.message ∷ []) e m.before.value
            m.after.value peers.old peers.new)) }
        ensures posted { IfNone result.1 (peers.new ≡ peers.old) }
    {
        match self.inbox_to_post_message(rt, &arrival.message) {
            Some(inbox) => match inbox.post_message(rt, arrival) {
                Ok(_) => (Ok(()), None),
                Err(error) => (Err(error), None),
            },
            None => {
                let (done, moved) = self.hear(rt, alloc, peers, arrival);
                self.end_driving(rt, &done);
                (done, Some(moved))
            }
        }
    }

    /// What the node makes of another replica's message that leaves out so many of the first records of its log: the
    /// whole message, or nothing where the node hasn't committed as many. It gives the node as the lock held it, for
    /// clauses alone. Its only error is want of memory.
    pub fn fill(
        &self,
        rt: &R,
        alloc: Global,
        left_out: u64,
        message: PeerMessage<Op>,
    ) -> (
        Result<Option<PeerMessage<Op>>, AllocError>,
        Snapshot<Node<D, J>>,
    )
        ensures own { identity_of result.1.value ≡ I.own }
        ensures filled { IfOk result.0 (λ taken. taken ≡ taken_as left_out result.1.value.replica.commit_number
            result.1.value.replica.log message) }
    {
        let held = self.held.lock(rt);
        let node = held.node();
        let taken = fill(alloc, node.log(), node.commit_number(), left_out, message);
        (taken, Snapshot::of(node))
    }

    /// Parts of a long message were taken by the replica of this index, at this moment; whether the clock was told of
    /// it: not where another thread has the node just then.
    pub fn hear_taken(&self, to: u64, now: u64) -> bool {
        match self.held.try_lock() {
            Some(mut held) => {
                held.hear_taken(to, now);
                true
            }
            None => false,
        }
    }

    /// All events that wait, once there are some; none where no thread drives the node, or not any more.
    pub fn next_batch(&self, rt: &R, alloc: Global) -> Option<EventBatch> {
        self.inbox.as_ref()?.take(rt, alloc)
    }

    /// Hands a batch of events to the node, which shows the seats what it then has executed; hands over what the steps
    /// send, in the order of the steps; and tells those who wait. Its errors are the node's. It gives the node as the
    /// lock held it before the batch and after it, for clauses alone.
    pub fn handle_batch<P: Peers>(
        &self,
        rt: &R,
        alloc: Global,
        peers: &mut P,
        batch: EventBatch,
        now: u64,
    ) -> (Result<Batched, NodeError>, Moved<D, J>)
        ensures own { AreOf I.own result.1.before.value result.1.after.value }
        ensures stepped { IfOk result.0 (λ done. HasSteppedAll P.takes batch.events.items done.outputs.value.items
            result.1.before.value result.1.after.value peers.old peers.new) }
        ensures left_out { IfOk result.0 (λ done. done.left_out ≡ left_out done.outputs.value.items) }
        ensures refused { IfErr result.0 (λ e. HasRefused batch.events.items e result.1.before.value
            result.1.after.value peers.old peers.new) }
    {
        let EventBatch {
            events,
            heard,
            beat_at,
            requests,
            last,
        } = batch;
        let mut held = self.held.lock(rt);
        let (ask_at, prospect, length) = (held.ask_at(), held.prospect(), held.node().log_len());
        let before = Snapshot::of(held.node());
        let done = take_all(alloc, &mut held, peers, events, beat_at);
        let after = Snapshot::of(held.node());
        held.hear_all(heard.as_slice(), now);
        held.had = last;
        let is_early = held.ask_at() < ask_at;
        self.standing.set(held.standing());
        // With each beat those who wait look again, whatever has come.
        let is_certain = beat_at.is_none() && held.has_appended(requests, length);
        let called = held.called_since(prospect, is_certain);
        drop(held);
        self.waiters.wake(called);
        peers.flush();
        if is_early {
            self.call_early(rt);
        }
        let moved = Moved { before, after };
        match done {
            Ok((batched, beat)) => {
                self.keep_beat(rt, beat);
                (Ok(batched), moved)
            }
            Err(error) => (Err(error), moved),
        }
    }

    /// Keeps what a beat has sent, for the thread of the clock.
    fn keep_beat(&self, rt: &R, beat: Option<LastBeat<I>>) {
        if beat.is_some() {
            *self.beat.lock(rt) = beat;
        }
    }

    /// Asks the node's clock, at this moment, and posts what is due: what was due, what the node does, and what its
    /// last beat has sent, where that wasn't taken yet. None, where another thread has the node just then.
    pub(crate) fn tick_beside(
        &self,
        rt: &R,
        inbox: &Inbox,
        now: u64,
    ) -> Option<(Asked, Pulse, Option<Vec<Send<Op>>>)>
        ensures { IfSome result (λ t. IfSome t.2 (λ c. IsBeatOf I.own c.items)) }
    {
        let mut held = self.held.try_lock()?;
        let asked = held.ask(now);
        let pulse = held.pulse();
        drop(held);
        match asked.due {
            Due::Nothing => {}
            Due::Beat => inbox.post_due(rt, true),
            Due::Suspect => inbox.post_due(rt, false),
        }
        let beat = match self.beat.lock(rt).take() {
            Some(beat) => Some(beat.into_sends()),
            None => None,
        };
        Some((asked, pulse, beat))
    }
}
