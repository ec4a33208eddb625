// A node that threads share: takes events one at a time, sends messages, and wakes whoever waits.
ghost use Rattle.std.specs.Prelude.{◌≡◌, ◌∷◌, [], IfErr, IfNone, IfOk, IfSome, MatchOption, OnOk};
ghost use Rattle.dir_node.specs.vr_state.declared.event.Event.TheVariants as event;
ghost use Rattle.dir_seats.specs.directory_api.View.{ended_view};
ghost use Rattle.node_gate.specs.Identities.{identity_of};
ghost use Rattle.node_gate.specs.Moved.{AreOf, HasActed, HasRefused, HasStepped, IsBeatOf, event_of, step_at};
ghost use Rattle.node_gate.specs.Sent.{TakesAll};
ghost use Rattle.node_gate.specs.Shared.{SettlesAs};
ghost use Rattle.replica_clock.specs.declared.clock.Due.TheVariants as kind;

use crate::arrival::Arrival;
use crate::beats::LastBeat;
use crate::ending::{Request, ended_at};
use crate::held::{LockedNode, Pulse, status_of};
use crate::identity::NodeIdentity;
use crate::inbox::Inbox;
use crate::moved::{Acted, Moved};
use crate::peers::{Peers, send_all};
use crate::published::{Here, PublishedNode};
use crate::standing::LastStanding;
use crate::waiters::{Called, Waiters};
use dir_node::{
    Device, Event, JournalDevice, Node, NodeError, Op, Outputs, Send, Standing, copy_message,
};
use dir_seats::{Ended, Teller, Told};
use replica_clock::{Asked, Due, ReplicaClock, Times};
use std::alloc::{AllocError, Global};
use std::snapshot::Snapshot;
use std::sync::atomic::{AtomicBool, Ordering};
use std::sync::{Condvar, CondvarTimeouts, Mutex, Wait};
use std::time::{Clock, Duration};

/// What the thread of the clock waits for.
#[derive(Drop)]
struct Call {
    /// The clock wants to be asked earlier than it said.
    is_early: bool,
    is_stopping: bool,
}

/// The node with this identity under its lock, with conditions for those who wait for the outcomes of updates, and one
/// for the thread that asks its clock.
pub struct SharedNode<'a, R: Wait, D: Device, J: JournalDevice, I: NodeIdentity> {
    pub(crate) held: Mutex<LockedNode<'a, R, D, J, I>>,
    /// The standing to sessions after the last event, for who doesn't wait for the lock.
    pub(crate) standing: LastStanding,
    teller: Teller<Here>,
    pub(crate) waiters: Waiters,
    /// Events that wait for the thread that drives a node with a journal; none without one.
    pub(crate) inbox: Option<Inbox>,
    /// What the last beat of that thread has sent, until the thread of the clock takes it.
    pub(crate) beat: Mutex<Option<LastBeat<I>>>,
    call: Mutex<Call>,
    called: Condvar,
}

// Not derived: see "What the gate takes" in docs/ARCHITECTURE.md.
impl<'a, R: Wait, D: Device + Drop, J: JournalDevice + Drop, I: NodeIdentity> Drop
    for SharedNode<'a, R, D, J, I> {
    fn drop(self) {
        let SharedNode {
            held: _,
            standing: _,
            teller: _,
            waiters: _,
            inbox: _,
            beat: _,
            call: _,
            called: _,
        } = self;
    }
}

/// What came of asking the clock.
#[derive(Drop)]
pub struct Ticked<D: Device, J: JournalDevice> {
    /// What the node does after it.
    pub pulse: Pulse,
    /// After how long to ask again.
    pub wait: u64,
    /// Copies of what a beat has sent, as far as there was memory for them; none where it was no beat.
    pub beat: Option<Vec<Send<Op>>>,
    /// What was due.
    pub due: Due,
    /// What came of that; none where it was posted.
    pub acted: Option<Acted<D, J>>,
}

/// Copies of what is sent.
pub fn copies(alloc: Global, sends: &[Send<Op>]) -> Result<Vec<Send<Op>>, AllocError>
    ensures { IfOk result (λ c. c.items ≡ sends.now) }
{
    let mut copied = Vec::with_capacity(alloc, sends.len())?;
    for send in sends {
        copied.push(Send {
            to: send.to,
            message: copy_message(alloc, &send.message)?,
        })?;
    }
    Ok(copied)
}

/// Hands over what a step sends.
pub(crate) fn send_outputs<P: Peers>(peers: &mut P, outputs: Outputs<Op>)
    ensures { TakesAll P.takes peers.old outputs.sends.items peers.new }
{
    let Outputs {
        sends,
        store: _,
        replies: _,
    } = outputs;
    send_all(peers, sends);
}

/// Hands an event to the node, and over what its step sends.
fn take<R: Wait, D: Device, J: JournalDevice, I: NodeIdentity, P: Peers>(
    alloc: Global,
    held: &mut LockedNode<'_, R, D, J, I>,
    peers: &mut P,
    event: Event<Op>,
) -> Result<(), NodeError>
    ensures stepped { OnOk result (HasStepped P.takes event held.old.published.node held.new.published.node peers.old
        peers.new) }
    ensures refused { IfErr result (λ e. HasRefused (event ∷ []) e held.old.published.node held.new.published.node
        peers.old peers.new) }
{
    let handled = held.handle(alloc, event)?;
    send_outputs(peers, handled.outputs);
    Ok(())
}

/// Hands the message of another replica to the node, likewise.
fn take_message<R: Wait, D: Device, J: JournalDevice, I: NodeIdentity, P: Peers>(
    alloc: Global,
    held: &mut LockedNode<'_, R, D, J, I>,
    peers: &mut P,
    arrival: Arrival,
) -> Result<(), NodeError>
    ensures stepped { OnOk result (HasStepped P.takes (event.Message arrival.from arrival.message)
        held.old.published.node held.new.published.node peers.old peers.new) }
    ensures refused { IfErr result (λ e. HasRefused (event.Message arrival.from arrival.message ∷ []) e
        held.old.published.node held.new.published.node peers.old peers.new) }
{
    let handled = held.hear(alloc, arrival)?;
    send_outputs(peers, handled.outputs);
    Ok(())
}

/// Lets the node make a beat, and copies what it sends, where there is memory for that.
fn beat<R: Wait, D: Device, J: JournalDevice, I: NodeIdentity, P: Peers>(
    alloc: Global,
    held: &mut LockedNode<'_, R, D, J, I>,
    peers: &mut P,
) -> (Result<(), NodeError>, Option<Vec<Send<Op>>>)
    ensures stepped { OnOk result.0 (HasStepped P.takes event.Beat held.old.published.node held.new.published.node
        peers.old peers.new) }
    ensures refused { IfErr result.0 (λ e. HasRefused (event.Beat ∷ []) e held.old.published.node
        held.new.published.node peers.old peers.new) }
    ensures copied { IfSome result.1 (λ c. c.items ≡ (step_at held.old.published.node event.Beat).sends) }
{
    match held.handle(alloc, Event::Beat) {
        Ok(handled) => {
            let copied = match copies(alloc, handled.outputs.sends.as_slice()) {
                Ok(sends) => Some(sends),
                Err(_) => None,
            };
            send_outputs(peers, handled.outputs);
            (Ok(()), copied)
        }
        Err(error) => (Err(error), None),
    }
}

/// Does what is due, or nothing where nothing is; copies of what a beat has sent. A node that stopped at it shows that
/// in its pulse.
fn act<R: Wait, D: Device, J: JournalDevice, I: NodeIdentity, P: Peers>(
    alloc: Global,
    held: &mut LockedNode<'_, R, D, J, I>,
    peers: &mut P,
    due: Due,
) -> (Result<(), NodeError>, Option<Vec<Send<Op>>>)
    ensures acted { HasActed P.takes (event_of due) result.0 held.old.published.node held.new.published.node peers.old
        peers.new }
    ensures copied { IfSome result.1 (λ c. (due ≡ kind.Beat)
        × (c.items ≡ (step_at held.old.published.node event.Beat).sends)) }
{
    match due {
        Due::Nothing => (Ok(()), None),
        Due::Beat => beat(alloc, held, peers),
        Due::Suspect => (take(alloc, held, peers, Event::Suspect), None),
    }
}

impl<'a, R: Wait, D: Device, J: JournalDevice, I: NodeIdentity> SharedNode<'a, R, D, J, I> {
    /// The node with this identity for threads to share, and what tells what its publisher shows. Its clock begins at
    /// the moment 0.
    pub(crate) fn new(
        published: PublishedNode<'a, R, D, J>,
        teller: Teller<Here>,
        times: Times,
        inbox: Option<Inbox>,
    ) -> SharedNode<'a, R, D, J, I>
        requires { identity_of published.node ≡ I.own }
    {
        let node = published.node();
        let status = status_of(node.standing());
        let clock = ReplicaClock::new(
            times,
            node.index(),
            node.count(),
            node.view_number(),
            status,
            0,
        );
        let held = LockedNode::new(published, clock);
        SharedNode {
            standing: LastStanding::new(held.standing()),
            teller,
            held: Mutex::new(held),
            waiters: Waiters::new(),
            inbox,
            beat: Mutex::new(None),
            call: Mutex::new(Call {
                is_early: false,
                is_stopping: false,
            }),
            called: Condvar::new(),
        }
    }

    /// Hands an event to the node, which shows the seats what it then has executed; hands over what the step sends, in
    /// the order of the steps; and wakes those who wait, where an outcome may have come. Its errors are the node's. It
    /// gives the node as the lock held it before the event and after it, for clauses alone.
    pub fn handle<P: Peers>(
        &self,
        rt: &R,
        alloc: Global,
        peers: &mut P,
        event: Event<Op>,
    ) -> (Result<(), NodeError>, Moved<D, J>)
        ensures own { AreOf I.own result.1.before.value result.1.after.value }
        ensures stepped { OnOk result.0 (HasStepped P.takes event result.1.before.value result.1.after.value peers.old
            peers.new) }
        ensures refused { IfErr result.0 (λ e. HasRefused (event ∷ []) e result.1.before.value result.1.after.value
            peers.old peers.new) }
    {
        let mut held = self.held.lock(rt);
        let prospect = held.prospect();
        let before = Snapshot::of(held.node());
        let done = take(alloc, &mut held, peers, event);
        let after = Snapshot::of(held.node());
        self.standing.set(held.standing());
        let called = held.called_since(prospect, true);
        drop(held);
        self.waiters.wake(called);
        peers.flush();
        (done, Moved { before, after })
    }

    /// Hands the message of another replica to the node, as `handle` does.
    pub fn hear<P: Peers>(
        &self,
        rt: &R,
        alloc: Global,
        peers: &mut P,
        arrival: Arrival,
    ) -> (Result<(), NodeError>, Moved<D, J>)
        ensures own { AreOf I.own result.1.before.value result.1.after.value }
        ensures stepped { OnOk result.0 (HasStepped P.takes (event.Message arrival.from arrival.message)
            result.1.before.value result.1.after.value peers.old peers.new) }
        ensures refused { IfErr result.0 (λ e. HasRefused (event.Message arrival.from arrival.message ∷ []) e
            result.1.before.value result.1.after.value peers.old peers.new) }
    {
        let mut held = self.held.lock(rt);
        let (ask_at, prospect) = (held.ask_at(), held.prospect());
        let before = Snapshot::of(held.node());
        let done = take_message(alloc, &mut held, peers, arrival);
        let after = Snapshot::of(held.node());
        let is_early = held.ask_at() < ask_at;
        self.standing.set(held.standing());
        let called = held.called_since(prospect, true);
        drop(held);
        self.waiters.wake(called);
        peers.flush();
        if is_early {
            self.call_early(rt);
        }
        (done, Moved { before, after })
    }

    /// A part of a long message of another replica has come, at this moment.
    pub fn hear_part(&self, rt: &R, from: u64, now: u64) {
        self.held.lock(rt).hear_part(from, now);
    }

    /// The clock is to be asked earlier than it said.
    pub(crate) fn call_early(&self, rt: &R) {
        self.call.lock(rt).is_early = true;
        self.called.notify_all();
    }

    /// Asks the node's clock, at this moment, and does what is due, as `handle` does, or posts it where events wait for
    /// the thread that drives the node; none, where another thread has the node just then.
    pub fn tick<P: Peers>(
        &self,
        rt: &R,
        alloc: Global,
        peers: &mut P,
        now: u64,
    ) -> Option<Ticked<D, J>>
        ensures own { IfSome result (λ t. IfSome t.acted (λ d. AreOf I.own d.moved.before.value d.moved.after.value)) }
        ensures acted { IfSome result (λ t. MatchOption t.acted (peers.new ≡ peers.old)
            (λ d. HasActed P.takes (event_of t.due) d.done d.moved.before.value d.moved.after.value peers.old
            peers.new)) }
        ensures copied { IfSome result (λ t. IfSome t.acted (λ d. IfSome t.beat
            (λ c. (t.due ≡ kind.Beat) × (c.items ≡ (step_at d.moved.before.value event.Beat).sends)))) }
        ensures repeated { IfSome result (λ t. IfSome t.beat (λ c. IsBeatOf I.own c.items)) }
        ensures elsewhere { IfNone result (peers.new ≡ peers.old) }
    {
        match &self.inbox {
            Some(inbox) => {
                let (asked, pulse, beat) = self.tick_beside(rt, inbox, now)?;
                Some(Ticked {
                    pulse,
                    wait: asked.wait,
                    beat,
                    due: asked.due,
                    acted: None,
                })
            }
            None => self.tick_alone(rt, alloc, peers, now),
        }
    }

    /// Asks the node's clock, and does what is due.
    fn tick_alone<P: Peers>(
        &self,
        rt: &R,
        alloc: Global,
        peers: &mut P,
        now: u64,
    ) -> Option<Ticked<D, J>>
        ensures own { IfSome result (λ t. IfSome t.acted (λ d. AreOf I.own d.moved.before.value d.moved.after.value)) }
        ensures acted { IfSome result (λ t. MatchOption t.acted (peers.new ≡ peers.old)
            (λ d. HasActed P.takes (event_of t.due) d.done d.moved.before.value d.moved.after.value peers.old
            peers.new)) }
        ensures copied { IfSome result (λ t. IfSome t.acted (λ d. IfSome t.beat
            (λ c. (t.due ≡ kind.Beat) × (c.items ≡ (step_at d.moved.before.value event.Beat).sends)))) }
        ensures repeated { IfSome result (λ t. IfSome t.beat (λ c. IsBeatOf I.own c.items)) }
        ensures elsewhere { IfNone result (peers.new ≡ peers.old) }
    {
        let mut held = self.held.try_lock()?;
        let Asked { due, wait } = held.ask(now);
        let prospect = held.prospect();
        let before = Snapshot::of(held.node());
        let (done, beat) = act(alloc, &mut held, peers, due);
        let after = Snapshot::of(held.node());
        held.note(now);
        let pulse = held.pulse();
        self.standing.set(held.standing());
        // With each beat those who wait look again, whatever has come.
        let called = held.called_since(prospect, false);
        drop(held);
        self.waiters.wake(called);
        peers.flush();
        let moved = Moved { before, after };
        Some(Ticked {
            pulse,
            wait,
            beat,
            due,
            acted: Some(Acted { done, moved }),
        })
    }

    /// Waits until the node has had the event of a client's request, where it was posted, and while what becomes of
    /// that is still to come, but only as long as nobody says that the client has left; gives how it ended, and the
    /// node as the lock then held it, for clauses alone.
    pub fn settled(
        &self,
        rt: &R,
        alloc: Global,
        request: Request,
        has_left: &AtomicBool,
    ) -> (Ended, Snapshot<Node<D, J>>)
        ensures { SettlesAs I.own result.1.value request.client request.number (ended_view result.0) }
    {
        let mut held = self.held.lock(rt);
        held.waiting = held.waiting.saturating_add(1);
        let waiters = self.waiters.of(request.client, request.number);
        let mut held = waiters.wait_while(rt, held, |held| {
            held.is_awaited(&request)
                && !has_left.load(Ordering::SeqCst)
                && self.standing.has_majority()
        });
        held.waiting = held.waiting.saturating_sub(1);
        let node = held.node();
        let ended = ended_at(alloc, node, request.client, request.number);
        (ended, Snapshot::of(node))
    }

    /// Has those who wait for an outcome look again whether their clients have left. It takes no lock: who begins to
    /// wait meanwhile looks after the next event, or when the clock is asked next.
    pub fn look_again(&self) {
        self.waiters.wake(Called::all());
    }

    /// The standing of the node after some event of the call or the last before it. It waits for nobody.
    pub fn standing(&self) -> Standing {
        self.standing.get()
    }

    /// That standing as sessions are told it: a primary that hears from no majority takes no update.
    pub fn standing_to_sessions(&self) -> Standing {
        self.standing.to_sessions()
    }

    /// The node hears from a majority, or from none: then those who wait for an update's outcome go on without it. It
    /// waits for nobody.
    pub fn set_majority(&self, has_majority: bool) {
        self.standing.set_majority(has_majority);
        self.waiters.wake(Called::all());
    }

    /// How many holds of the lock have ended. It waits for nobody.
    pub fn steps(&self) -> u64 {
        self.standing.steps()
    }

    /// The whole of what the seats see at some moment of the call; none, where there is no place to tell it by. It
    /// takes no lock, and waits for nobody.
    pub fn told(&self) -> Option<Told<Here>> {
        self.teller.tell()
    }

    /// What the node does at some moment of the call.
    pub fn pulse(&self, rt: &R) -> Pulse {
        self.held.lock(rt).pulse()
    }

    /// Waits for so long, or until the clock is to be asked earlier, or until it is stopped; whether it is.
    pub fn rest(&self, rt: &R, time: Duration) -> bool
    where
        R: Clock,
    {
        let (mut call, _) = self
            .called
            .wait_timeout_while(rt, self.call.lock(rt), time, |call| {
                !call.is_stopping && !call.is_early
            });
        call.is_early = false;
        call.is_stopping
    }

    /// Nobody waits any more: what is still to come counts as lost.
    pub fn stop(&self, rt: &R) {
        self.held.lock(rt).is_stopping = true;
        self.waiters.wake(Called::all());
        if let Some(inbox) = &self.inbox {
            inbox.stop(rt);
        }
        self.call.lock(rt).is_stopping = true;
        self.called.notify_all();
    }
}
