//! Seats that take turns: of those that are free one waits for all sessions that wait.
use crate::leaving::FAREWELL;
use crate::pool::{SessionPool, Watch};
use crate::tells::SessionObserver;
use client_link::SessionEnd;
use mio::Token;
use mio::event::Event;
use session_table::{ClientState, NoteOutcome, PooledSession, Table, Turn, place_in, token_of};
use session_turns::{Act, Call, Queue, Was};
use std::sync::Wait;
use std::sync::atomic::Ordering;
use std::time::{Clock, Duration, Instant};

/// How long the leader waits at most, in milliseconds.
const LONGEST: u64 = 1_000;

/// For how many milliseconds a bind waits, where others of its connection were refused.
const DELAY: u64 = 1_000;

/// After which part of the time that a client may let an answer wait its session is asked whether that is over: it is
/// longer for what was taken.
const PART: u32 = 16;

/// That part of a time.
fn part_of(limit: Duration) -> Duration {
    limit
        .checked_div(PART)
        .unwrap_or(limit)
        .max(Duration::from_millis(1))
}

/// What an event says of a client whose update waits, if anything.
fn state_told(event: &Event) -> Option<ClientState> {
    if event.is_error() || event.is_write_closed() {
        Some(ClientState::Gone)
    } else if event.is_read_closed() {
        Some(ClientState::SendsNoMore)
    } else {
        None
    }
}

impl<'a, R: Wait + Clock, T: SessionObserver> SessionPool<'a, R, T> {
    /// Puts a session where it waits, and has it watched. The leader takes the same lock before it looks at what is
    /// ready. One whose message isn't whole in time ends.
    pub fn park(&self, mut pooled: PooledSession, queue: Queue) {
        let Ok(now) = Instant::now(self.rt) else {
            return self.end(pooled, SessionEnd::ReadFailed);
        };
        pooled.pause(queue, now);
        if pooled.is_late(self.door.limits().message, now) {
            return self.end(pooled, SessionEnd::ReadFailed);
        }
        if !self.admits(&mut pooled) {
            return self.end_for_memory(pooled);
        }
        if let Some(pooled) = self.put_at_place(pooled, queue) {
            self.end(pooled, SessionEnd::NoMemory);
        }
    }

    /// Puts a session at its place and has it watched, under one lock. It comes back where that can't be done.
    pub fn put_at_place(&self, pooled: PooledSession, queue: Queue) -> Option<PooledSession> {
        let (place, fd) = (pooled.place(), pooled.fd());
        let token = token_of(place, pooled.number());
        let mut table = self.table.lock(self.rt);
        if let Err(pooled) = table.park(pooled, queue) {
            return Some(pooled);
        }
        if self.watcher.watch(fd, token, queue) {
            None
        } else {
            table.wake(place)
        }
    }

    /// A session ends since it holds more than there is room for.
    fn end_for_memory(&self, pooled: PooledSession) {
        self.budget.count_end();
        self.finish(pooled, SessionEnd::NoMemory);
    }

    /// For how many microseconds the pool had been there at this moment.
    fn micros_at(&self, now: Instant) -> u64 {
        let time = now.saturating_duration_since(self.start).as_micros();
        u64::try_from(time).unwrap_or(u64::MAX)
    }

    /// For how many microseconds the pool has been there; 0, where the clock can't be read.
    pub fn micros(&self) -> u64 {
        match Instant::now(self.rt) {
            Ok(now) => self.micros_at(now),
            Err(_) => 0,
        }
    }

    /// Calls whom a thread has to call.
    fn call(&self, call: Call) {
        match call {
            Call::Nobody => {}
            Call::Seat => self.turn.notify_one(),
            Call::Leader => self.watcher.wake(),
        }
    }

    /// Queues a session of which a whole message stands next, in its class.
    pub fn queue(&self, mut pooled: PooledSession) {
        if !self.admits(&mut pooled) {
            return self.end_for_memory(pooled);
        }
        let now = self.micros();
        let mut table = self.table.lock(self.rt);
        match table.queue(pooled, now) {
            Ok(call) => {
                self.overview.show(&table);
                drop(table);
                self.call(call);
            }
            Err(pooled) => {
                drop(table);
                self.end(pooled, SessionEnd::NoMemory);
            }
        }
    }

    /// Queues a session whose next message may be an update, and has it watched for its client's end.
    pub fn queue_update(&self, mut pooled: PooledSession) {
        let Ok(now) = Instant::now(self.rt) else {
            return self.end(pooled, SessionEnd::ReadFailed);
        };
        if !self.admits(&mut pooled) {
            return self.end_for_memory(pooled);
        }
        pooled.line_up(now);
        let fd = pooled.fd();
        let token = token_of(pooled.place(), pooled.number());
        let mut table = self.table.lock(self.rt);
        if let Err(pooled) = table.queue_update(pooled, self.micros_at(now)) {
            drop(table);
            return self.end(pooled, SessionEnd::NoMemory);
        }
        self.watcher.watch_end(fd, token);
        drop(table);
        self.work.notify_one();
    }

    /// The session of a place no longer waits for its socket, which is ready, but for its turn. Whether one waited
    /// there.
    fn rouse(&self, table: &mut Table, place: usize, now: Instant) -> bool {
        let Some((fd, turn)) = table.rouse(place, now, self.micros_at(now)) else {
            return false;
        };
        self.watcher.forget(fd);
        if turn == Turn::Update {
            if let Some(token) = table.token_at(place) {
                self.watcher.watch_end(fd, token);
            }
            self.work.notify_one();
        }
        true
    }

    /// The client of the update in this thread is gone.
    fn leave(&self, thread: usize) {
        if let Some(leaves) = self.leaves.get(thread) {
            leaves.store(true, Ordering::SeqCst);
            self.teller.left();
        }
    }

    /// Takes note of what an event says of the client of a session whose update waits.
    fn note(&self, table: &mut Table, event: &Event, now: Instant) {
        let Some(state) = state_told(event) else {
            return;
        };
        let Token(token) = event.token();
        match table.note(self.alloc, token, state, now) {
            NoteOutcome::Nothing => {}
            NoteOutcome::Leaves(thread) => self.leave(thread),
            NoteOutcome::Gives(less) => self.budget.post(less, 0),
        }
    }

    /// Queues the sessions whose sockets are ready.
    fn rouse_all(&self, watch: &Watch, now: Instant) {
        let mut table = self.table.lock(self.rt);
        for event in &watch.events {
            let Token(token) = event.token();
            let place = place_in(token);
            if self.drop_input(&mut table, place) {
                continue;
            }
            if !self.rouse(&mut table, place, now) {
                self.note(&mut table, event, now);
            }
        }
        self.overview.show(&table);
    }

    /// Takes the sessions out of a queue that have waited there for so long.
    fn expire(&self, queue: Queue, limit: Duration, now: Instant) {
        for _ in self.rt.forever() {
            let overdue = self.table.lock(self.rt).overdue(queue, limit, now);
            match overdue {
                Some(pooled) => self.release(pooled, queue),
                None => break,
            }
        }
    }

    /// A session has waited in a queue for as long as it may: one that is over is closed, a bind has waited for long
    /// enough, and any other session ends.
    fn release(&self, mut pooled: PooledSession, queue: Queue) {
        match queue {
            Queue::Leaving => self.close(pooled),
            Queue::Delayed => {
                pooled.allow_bind();
                self.queue(pooled);
            }
            Queue::Silent | Queue::Inside | Queue::Unsent => {
                self.end(pooled, SessionEnd::ReadFailed);
            }
        }
    }

    /// Ends the sessions whose clients have let octets wait for too long. How long is too long, each session says for
    /// itself: it is asked again and again, after a part of the limit.
    fn expire_unsent(&self, limit: Duration, now: Instant) {
        for _ in self.rt.forever() {
            let mut table = self.table.lock(self.rt);
            let Some(mut pooled) = table.overdue(Queue::Unsent, part_of(limit), now) else {
                break;
            };
            let slow = pooled.wait_on(limit, now);
            let ends = if slow {
                Some((pooled, SessionEnd::WriteFailed))
            } else {
                match table.park(pooled, Queue::Unsent) {
                    Ok(()) => None,
                    Err(pooled) => Some((pooled, SessionEnd::NoMemory)),
                }
            };
            drop(table);
            if let Some((pooled, end)) = ends {
                self.end(pooled, end);
            }
        }
    }

    /// Lets the updates go whose clients have sent no more for too long.
    fn leave_all(&self, limit: Duration, now: Instant) {
        let mut table = self.table.lock(self.rt);
        for _ in self.rt.forever() {
            match table.gone(limit, now) {
                Some(thread) => self.leave(thread),
                None => break,
            }
        }
    }

    /// Has seats answer the updates that have waited for a thread for too long.
    fn refuse_overdue(&self, limit: Duration, now: Instant) {
        for _ in self.rt.forever() {
            let overdue = self.table.lock(self.rt).overdue_update(limit, now);
            let Some(mut pooled) = overdue else {
                break;
            };
            self.unwatch_end(&pooled);
            pooled.give_up_update();
            self.queue(pooled);
        }
    }

    /// The socket of a session whose update waits no more is watched no more.
    pub fn unwatch_end(&self, pooled: &PooledSession) {
        self.watcher.forget(pooled.fd());
    }

    /// How long the leader may wait: not at all where sessions are ready; else until one has waited for too long, but
    /// no longer than a second, or than a limit.
    fn time_left(&self) -> Duration {
        let limits = self.door.limits();
        let most = Duration::from_millis(LONGEST)
            .min(limits.message)
            .min(limits.write);
        let Ok(now) = Instant::now(self.rt) else {
            return most;
        };
        let table = self.table.lock(self.rt);
        if table.ready() > 0 {
            return Duration::from_secs(0);
        }
        let (farewell, delay) = (
            Duration::from_millis(FAREWELL),
            Duration::from_millis(DELAY),
        );
        most.min(table.time_left(Queue::Inside, limits.message, now))
            .min(table.time_left(Queue::Unsent, part_of(limits.write), now))
            .min(table.time_left(Queue::Leaving, farewell, now))
            .min(table.time_left(Queue::Delayed, delay, now))
            .max(Duration::from_millis(1))
    }

    /// Queues what is ready, and ends what has waited for too long.
    fn attend_all(&self, watch: &Watch) {
        let Ok(now) = Instant::now(self.rt) else {
            return;
        };
        let limits = self.door.limits();
        self.rouse_all(watch, now);
        self.expire(Queue::Inside, limits.message, now);
        self.expire_unsent(limits.write, now);
        self.expire(Queue::Leaving, Duration::from_millis(FAREWELL), now);
        self.leave_all(limits.message, now);
        self.expire(Queue::Delayed, Duration::from_millis(DELAY), now);
        self.refuse_overdue(limits.write, now);
    }

    /// Waits for sockets for so long, at most; queues sessions that are ready, and ends those that have waited for too
    /// long.
    fn poll_sockets(&self, limit: Duration) {
        let mut watch = self.watch.lock(self.rt);
        let Watch { poll, events } = &mut *watch;
        let _ = poll.poll(events, Some(limit));
        self.attend_all(&*watch);
        drop(watch);
        self.overview.note_look(self.micros());
        if self.door.is_closed() {
            self.table.lock(self.rt).is_closed = true;
            self.turn.notify_all();
            self.work.notify_all();
        }
    }

    /// A look for a seat that serves a session begins, unless another seat leads.
    fn begin_look(&self) -> bool {
        let mut table = self.table.lock(self.rt);
        let begins = table.lead.begin_look();
        self.overview.show(&table);
        begins
    }

    /// It has ended. Whom the seat calls: others that came to rest meanwhile relied on it.
    fn end_look(&self) -> Call {
        let mut table = self.table.lock(self.rt);
        let call = table.lead.end_look();
        self.overview.show(&table);
        call
    }

    /// Looks which sockets are ready, unless another seat leads.
    pub fn look(&self) {
        if self.begin_look() {
            self.poll_sockets(Duration::from_secs(0));
            let call = self.end_look();
            self.call(call);
        }
    }

    /// A session that is ready, or none, where this seat is to wait for sockets first, or the pool is closed.
    fn take_ready(&self, before: Was) -> Option<PooledSession> {
        let mut was = before;
        let mut table = self.table.lock(self.rt);
        for _ in self.rt.forever() {
            if table.is_closed {
                return None;
            }
            let ready = table.ready();
            let (act, call) = table.lead.free(was, ready);
            match act {
                Act::Rest => {
                    table = self.turn.wait(self.rt, table);
                    was = Was::Resting;
                }
                Act::Lead => {
                    self.overview.show(&table);
                    return None;
                }
                Act::Serve => {
                    let pooled = table.next_ready();
                    self.overview.show(&table);
                    drop(table);
                    self.call(call);
                    return pooled;
                }
            }
        }
        None
    }

    fn is_closed(&self) -> bool {
        self.table.lock(self.rt).is_closed
    }

    /// A session that a thread has taken, as it is to be served; none, where it was over before its turn. An update
    /// that has waited for too long is answered here.
    fn ready_to_serve(&self, mut pooled: PooledSession) -> Option<PooledSession> {
        if let Some(end) = pooled.over() {
            self.end(pooled, end);
            return None;
        }
        if pooled.has_given_up() {
            self.refuse_update(&mut pooled);
            pooled.take_up();
        } else if pooled.is_search_next() && !self.relieve() {
            self.refuse_search(&mut pooled);
        }
        Some(pooled)
    }

    /// The next session that is ready; none, once the pool is closed. Of the seats that are free, one waits for all
    /// sessions.
    pub fn next(&self) -> Option<PooledSession> {
        let mut next = None;
        let mut was = Was::Serving;
        for _ in self.rt.forever() {
            match self.take_ready(was) {
                Some(pooled) => {
                    next = self.ready_to_serve(pooled);
                    was = Was::Serving;
                }
                None => {
                    if !self.is_closed() {
                        self.poll_sockets(self.time_left());
                    }
                    was = Was::Leading;
                }
            }
            if next.is_some() || self.is_closed() {
                break;
            }
        }
        next
    }

    /// The session whose update is to be made by this thread next; none, once the pool is closed. Since when its client
    /// sends no more is known to those who watch the thread.
    fn take_update(&self, thread: usize) -> Option<PooledSession> {
        let mut table = self.table.lock(self.rt);
        for _ in self.rt.forever() {
            if table.is_closed || table.has_updates() {
                break;
            }
            table = self.work.wait(self.rt, table);
        }
        if table.is_closed {
            return None;
        }
        let pooled = table.next_update(thread)?;
        if let Some(leaves) = self.leaves.get(thread) {
            leaves.store(false, Ordering::SeqCst);
        }
        Some(pooled)
    }

    /// The next session whose next message may be an update, for this thread; none, once the pool is closed. One whose
    /// client was gone before is ended.
    pub fn next_update(&self, thread: usize) -> Option<PooledSession> {
        let limit = self.door.limits().message;
        let mut next = None;
        for _ in self.rt.forever() {
            let Some(mut pooled) = self.take_update(thread) else {
                break;
            };
            match pooled.end_before(limit, Instant::now(self.rt).ok()) {
                Some(end) => {
                    self.unwatch(thread, &pooled);
                    self.end(pooled, end);
                }
                None => {
                    next = Some(pooled);
                    break;
                }
            }
        }
        next
    }
}
