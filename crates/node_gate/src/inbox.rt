//! Events that wait for the thread that drives a node with a journal: it takes all of them at once, so that one sync
//! settles them all. An event that comes while none waits and nobody drives doesn't wait: its thread drives with it.
use crate::arrival::Arrival;
use crate::drivers::{Driver, is_called, may_drive};
use dir_node::{Event, NodeError, Op};
use replica_clock::{Sign, sign_of};
use std::alloc::{AllocError, Global};
use std::mem;
use std::sync::{Condvar, Mutex, MutexGuard, Wait};

/// How many events wait, at most: who brings one more waits until there is room.
const EVENTS: usize = 4_096;

/// What the clock is told of a message that was heard.
#[derive(Clone, Copy)]
pub struct HeardSign {
    pub from: u64,
    pub sign: Sign,
    pub at: u64,
}

/// Events in the order in which they came.
#[derive(Drop)]
pub struct EventBatch {
    pub events: Vec<Event<Op>>,
    pub heard: Vec<HeardSign>,
    /// Which of the events is the clock's last beat, if one is.
    pub beat_at: Option<usize>,
    /// How many of the events are requests of clients.
    pub requests: u64,
    /// The number of the last event, of all that were ever posted.
    pub last: u64,
}

impl EventBatch {
    fn new(alloc: Global, last: u64) -> EventBatch {
        EventBatch {
            events: Vec::new(alloc),
            heard: Vec::new(alloc),
            beat_at: None,
            requests: 0,
            last,
        }
    }

    /// Adds an event; its number. At an error nothing has changed.
    fn push(&mut self, event: Event<Op>) -> Result<u64, AllocError> {
        let is_request = matches!(event, Event::Request { .. });
        self.events.push(event)?;
        if is_request {
            self.requests = self.requests.saturating_add(1);
        }
        self.last = self.last.saturating_add(1);
        Ok(self.last)
    }

    /// Adds a message. At an error nothing has changed.
    fn push_message(&mut self, arrival: Arrival) -> Result<u64, AllocError> {
        let Arrival { from, message, at } = arrival;
        let sign = sign_of(&message);
        self.heard.reserve(1)?;
        let number = self.push(Event::Message { from, message })?;
        self.heard.push(HeardSign { from, sign, at })?;
        Ok(number)
    }

    /// Adds a beat. At an error nothing has changed.
    fn push_beat(&mut self) -> Result<u64, AllocError> {
        let place = self.events.len();
        let number = self.push(Event::Beat)?;
        self.beat_at = Some(place);
        Ok(number)
    }
}

/// What waits.
#[derive(Drop)]
struct Waiting {
    batch: EventBatch,
    driver: Driver,
    /// Why the node has stopped, where it did so at an event that was brought and not posted.
    failure: Option<NodeError>,
    is_stopping: bool,
}

impl Waiting {
    /// Whether the thread is called for what waits.
    fn is_called(&self) -> bool {
        is_called(self.driver, self.batch.events.len())
    }

    /// Whether nobody is to take events any more.
    fn has_ended(&self) -> bool {
        self.is_stopping || self.failure.is_some()
    }
}

/// Events that wait, with a condition that is told when some came, and one that is told when they were taken.
pub struct Inbox {
    waiting: Mutex<Waiting>,
    came: Condvar,
    taken: Condvar,
}

// Not derived: see "What the gate takes" in docs/ARCHITECTURE.md.
impl Drop for Inbox {
    fn drop(self) {
        let Inbox {
            waiting: _,
            came: _,
            taken: _,
        } = self;
    }
}

impl Inbox {
    pub fn new(alloc: Global) -> Inbox {
        Inbox {
            waiting: Mutex::new(Waiting {
                batch: EventBatch::new(alloc, 0),
                driver: Driver::Nobody,
                failure: None,
                is_stopping: false,
            }),
            came: Condvar::new(),
            taken: Condvar::new(),
        }
    }

    /// Posts an event, once there is room; its number. `Halted` where nobody takes events any more.
    pub fn post<R: Wait>(&self, rt: &R, event: Event<Op>) -> Result<u64, NodeError> {
        let mut waiting = self.taken.wait_while(rt, self.waiting.lock(rt), |waiting| {
            waiting.batch.events.len() >= EVENTS && !waiting.is_stopping
        });
        if waiting.is_stopping {
            return Err(NodeError::Halted);
        }
        let number = waiting.batch.push(event)?;
        self.call_for(waiting);
        Ok(number)
    }

    /// Posts the message of another replica, likewise.
    pub fn post_message<R: Wait>(&self, rt: &R, arrival: Arrival) -> Result<u64, NodeError> {
        let mut waiting = self.taken.wait_while(rt, self.waiting.lock(rt), |waiting| {
            waiting.batch.events.len() >= EVENTS && !waiting.is_stopping
        });
        if waiting.is_stopping {
            return Err(NodeError::Halted);
        }
        let number = waiting.batch.push_message(arrival)?;
        self.call_for(waiting);
        Ok(number)
    }

    /// Posts a beat of the clock, or a suspicion: it waits for no room, and without memory it is lost.
    pub fn post_due<R: Wait>(&self, rt: &R, is_beat: bool) {
        let mut waiting = self.waiting.lock(rt);
        let _posted = if is_beat {
            waiting.batch.push_beat().is_ok()
        } else {
            waiting.batch.push(Event::Suspect).is_ok()
        };
        self.call_for(waiting);
    }

    /// Calls the thread for what waits, where it is to look at that now.
    fn call_for(&self, waiting: MutexGuard<'_, Waiting>) {
        let is_called = waiting.is_called();
        drop(waiting);
        if is_called {
            self.came.notify_all();
        }
    }

    /// Whether a thread that brings an event drives the node with it: none waits, and nobody drives. It ends that by
    /// `end_driving`.
    pub fn begin_driving<R: Wait>(&self, rt: &R) -> bool {
        let mut waiting = self.waiting.lock(rt);
        let drives = !waiting.has_ended() && may_drive(waiting.driver, waiting.batch.events.len());
        if drives {
            waiting.driver = Driver::Bringer;
        }
        drives
    }

    /// A thread that has brought an event drives no more: the node's own thread is called for what came meanwhile.
    pub fn end_driving<R: Wait>(&self, rt: &R) {
        let mut waiting = self.waiting.lock(rt);
        waiting.driver = Driver::Nobody;
        self.call_for(waiting);
    }

    /// The node has stopped at an event that was brought.
    pub fn fail<R: Wait>(&self, rt: &R, failure: NodeError) {
        self.waiting.lock(rt).failure = Some(failure);
        self.came.notify_all();
    }

    /// Why the node has stopped, where it did so at an event that was brought.
    pub fn failure<R: Wait>(&self, rt: &R) -> Option<NodeError> {
        self.waiting.lock(rt).failure.take()
    }

    /// All events that wait, once there are some and nobody else drives; none where nobody is to take events any more.
    /// The thread that takes them drives until it comes back for more.
    pub fn take<R: Wait>(&self, rt: &R, alloc: Global) -> Option<EventBatch> {
        let mut waiting = self.waiting.lock(rt);
        if waiting.driver == Driver::Thread {
            waiting.driver = Driver::Nobody;
        }
        let mut waiting = self.came.wait_while(rt, waiting, |waiting| {
            !waiting.is_called() && !waiting.has_ended()
        });
        if waiting.has_ended() {
            return None;
        }
        waiting.driver = Driver::Thread;
        let next = EventBatch::new(alloc, waiting.batch.last);
        let batch = mem::replace(&mut waiting.batch, next);
        drop(waiting);
        self.taken.notify_all();
        Some(batch)
    }

    /// Nobody takes events any more.
    pub fn stop<R: Wait>(&self, rt: &R) {
        self.waiting.lock(rt).is_stopping = true;
        self.came.notify_all();
        self.taken.notify_all();
    }
}
