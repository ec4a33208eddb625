//! A queue that threads share: items come in from any thread. They are taken by the sender, a thread of the queue's own,
//! or by a thread that has put one while no other has the stream.
ghost use Rattle.std.specs.Prelude.{◌<◌};

use crate::queue::MessageQueue;
use crate::turns::{Load, Step, Turn, go_on};
use crate::weighted::Weighted;
use std::alloc::{AllocError, Global};
use std::sync::{Condvar, CondvarTimeouts, Mutex, Wait};
use std::time::{Clock, Duration};

/// What came of waiting for an item.
pub enum Waited<T> {
    Item(T),
    /// None came in time.
    Nothing,
    /// Nothing is sent any more.
    Stopped,
}

/// Octets of which a stream hasn't taken all.
#[derive(Drop)]
pub struct Unsent {
    pub octets: Vec<u8>,
    /// How many of them it has taken.
    pub taken: usize,
}

impl Unsent {
    /// What it hasn't taken.
    pub fn rest(&self) -> &[u8] {
        self.octets.as_slice().get(self.taken..).unwrap_or(&[])
    }
}

/// What the sender has after it has waited: what came of that, and its stream, if it was put back and hasn't failed,
/// with what that hasn't taken.
pub type Taken<T, S> = (Waited<T>, Option<S>, Option<Unsent>);

/// What is under the lock.
struct LockedQueue<T, S> {
    queue: MessageQueue<T>,
    /// Whether something may be long that waits.
    is_long: bool,
    turn: Turn,
    /// The stream, while no thread has it, with what it hasn't taken.
    stream: Option<S>,
    unsent: Option<Unsent>,
    /// Whether the sender is to look.
    is_called: bool,
    is_stopping: bool,
}

// Not derived: see "What the gate takes" in docs/ARCHITECTURE.md.
impl<T: Drop, S: Drop> Drop for LockedQueue<T, S> {
    fn drop(self) {
        let LockedQueue {
            queue: _,
            is_long: _,
            turn: _,
            stream: _,
            unsent: _,
            is_called: _,
            is_stopping: _,
        } = self;
    }
}

/// What waits for one other replica, under a lock, with a condition to wait for the next item, and one to wait for the
/// stream. At most so many wait, of at most so great a weight; the newest always does. While no thread sends, the
/// stream is here too.
pub struct Outbox<T, S> {
    held: Mutex<LockedQueue<T, S>>,
    changed: Condvar,
    returned: Condvar,
}

// Not derived: see "What the gate takes" in docs/ARCHITECTURE.md.
impl<T: Drop, S: Drop> Drop for Outbox<T, S> {
    fn drop(self) {
        let Outbox {
            held: _,
            changed: _,
            returned: _,
        } = self;
    }
}

impl<T, S: Drop> LockedQueue<T, S> {
    /// The next item, where one waits; none, once it is stopped.
    fn take(&mut self) -> Option<T> {
        if self.is_stopping {
            return None;
        }
        let next = self.queue.pop();
        if self.queue.is_empty() {
            self.is_long = false;
            self.is_called = false;
        }
        Some(next?.into_item())
    }

    /// What waits.
    fn load(&self) -> Load {
        Load {
            is_some: !self.queue.is_empty(),
            is_long: self.is_long,
        }
    }

    /// Whether the sender has nothing to do.
    fn is_quiet(&self) -> bool {
        !self.is_stopping && !self.is_called && (self.turn == Turn::Poster || self.queue.is_empty())
    }

    /// The sender puts its stream back, where it has one for others too.
    fn put_back(&mut self, stream: Option<S>) {
        if stream.is_some() {
            self.turn = Turn::Free;
            self.stream = stream;
        }
    }

    /// The sender takes its stream, and what is next.
    fn take_all(&mut self) -> Taken<T, S> {
        self.turn = Turn::Sender;
        self.is_called = false;
        let waited = if self.is_stopping {
            Waited::Stopped
        } else {
            match self.take() {
                Some(item) => Waited::Item(item),
                None => Waited::Nothing,
            }
        };
        (waited, self.stream.take(), self.unsent.take())
    }
}

impl<T, S: Drop> Outbox<T, S> {
    /// Nothing waits yet, and the sender has the stream.
    pub fn new(
        alloc: Global,
        most_items: usize,
        most_weight: usize,
    ) -> Result<Outbox<T, S>, AllocError>
        requires { 0 < most_items }
    {
        let queue = MessageQueue::new(alloc, most_items, most_weight)?;
        Ok(Outbox {
            held: Mutex::new(LockedQueue {
                queue,
                is_long: false,
                turn: Turn::Sender,
                stream: None,
                unsent: None,
                is_called: false,
                is_stopping: false,
            }),
            changed: Condvar::new(),
            returned: Condvar::new(),
        })
    }

    /// Nothing is sent any more.
    pub fn stop<R: Wait>(&self, rt: &R) {
        self.held.lock(rt).is_stopping = true;
        self.changed.notify_all();
        self.returned.notify_all();
    }

    /// The sender puts its stream back for others, where there is one for them, and waits until there is something for
    /// it to do, but only for so long. Then it has its stream again, unless that has failed, and the next item. The
    /// lock is free again before these are used.
    pub fn take<R: Wait + Clock>(&self, rt: &R, stream: Option<S>, time: Duration) -> Taken<T, S> {
        let mut held = self.held.lock(rt);
        held.put_back(stream);
        let (held, _) = self
            .changed
            .wait_timeout_while(rt, held, time, |held| held.is_quiet());
        // A thread that has the stream then never waits for its other end.
        let mut held = self.returned.wait_while(rt, held, |held| {
            held.turn == Turn::Poster && !held.is_stopping
        });
        held.take_all()
    }

    /// The next item, where one waits; none, once it is stopped.
    pub fn take_waiting<R: Wait>(&self, rt: &R) -> Option<T> {
        self.held.lock(rt).take()
    }

    /// Waits for so long, or until it is stopped; whether it is.
    pub fn rest<R: Wait + Clock>(&self, rt: &R, time: Duration) -> bool {
        let (held, _) = self
            .changed
            .wait_timeout_while(rt, self.held.lock(rt), time, |held| !held.is_stopping);
        held.is_stopping
    }

    /// The stream, where a thread that has put an item is to send what waits; else the sender is called where that is
    /// needed.
    pub(crate) fn begin<R: Wait>(&self, rt: &R) -> Option<S> {
        let mut held = self.held.lock(rt);
        let step = held.turn.begin(held.load());
        if step == Step::Leave || held.is_stopping {
            return None;
        }
        if step == Step::Send {
            if let Some(stream) = held.stream.take() {
                held.turn = Turn::Poster;
                return Some(stream);
            }
        }
        held.is_called = true;
        drop(held);
        self.changed.notify_one();
        None
    }

    /// The next item, where one waits and nothing long does.
    pub(crate) fn take_short<R: Wait>(&self, rt: &R) -> Option<T> {
        let mut held = self.held.lock(rt);
        if held.is_long {
            return None;
        }
        held.take()
    }

    /// Puts the stream back after so many rounds, unless it has failed, with what it hasn't taken; where another round
    /// is to be made it is returned instead. The sender is called where that is needed.
    pub(crate) fn end_round<R: Wait>(
        &self,
        rt: &R,
        stream: Option<S>,
        unsent: Option<Unsent>,
        rounds: u64,
    ) -> Option<S> {
        let mut held = self.held.lock(rt);
        let has_sent = stream.is_some() && unsent.is_none();
        let step = go_on(has_sent, rounds, held.load());
        if step == Step::Send {
            return stream;
        }
        held.turn = if has_sent { Turn::Free } else { Turn::Sender };
        held.stream = stream;
        held.unsent = unsent;
        held.is_called = held.is_called || step == Step::Call;
        let is_called = held.is_called;
        drop(held);
        self.returned.notify_one();
        if is_called {
            self.changed.notify_one();
        }
        None
    }
}

impl<T: Drop, S: Drop> Outbox<T, S> {
    /// An item of this weight to be sent by the sender, behind those that wait. It waits for nothing but the
    /// lock and takes no memory; the oldest items are forgotten where there is no room.
    pub fn put<R: Wait>(&self, rt: &R, item: T, weight: usize) {
        let mut held = self.held.lock(rt);
        held.queue.push(Weighted { item, weight });
        held.is_long = true;
        held.is_called = true;
        drop(held);
        self.changed.notify_one();
    }

    /// An item of this weight, whose octets are few, behind those that wait. The thread that has put it calls
    /// `send_at_once` next: until then no other may know of it. It waits for nothing but the lock and takes no memory; the oldest items are
    /// forgotten where there is no room.
    pub fn put_short<R: Wait>(&self, rt: &R, item: T, weight: usize) {
        self.held.lock(rt).queue.push(Weighted { item, weight });
    }
}
