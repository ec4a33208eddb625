//! A session at a seat: its messages are answered, and it is parked, queued or ended.
ghost use Rattle.std.specs.Prelude.{◌≡◌, ◌+◌, ◌-◌, min, false, None, IsFalse};
ghost use Rattle.std.specs.Bool.{OnTrue, OnFalse};
ghost use Rattle.client_link.specs.session_handler.View.{config_view};
ghost use Rattle.client_link.specs.Served.{config_of};
ghost use Rattle.session_table.specs.Attending.{talk, IsSame, Becomes};
ghost use Rattle.session_pool.specs.Answering.{AnswersNext, AnswersSome};
ghost use Rattle.session_table.specs.Waiting.{HasHeard, IsDelayed};
ghost use Rattle.session_pool.specs.Sittings.{Sitting, Attends, HasAttendedSome};

use crate::pool::SessionPool;
use crate::tells::SessionObserver;
use client_link::{Config, Directory, Due};
use session_table::{Destination, PooledSession, ReadOutcome, Then, Turn, destination_of};
use session_turns::After;
use std::sync::Wait;
use std::time::{Clock, Duration, Instant};

/// How many octets are read at once, at most.
pub const PIECE: usize = 8192;

/// How many messages of one session are answered before it goes to the back of the queue.
const MESSAGES: usize = 16;

/// How many sittings one session has in a row. Then it is parked, or goes to the back of the queue.
const SITTINGS: u32 = 256;

/// How many octets may be unsent before no further message is answered.
const UNSENT: usize = 65_536;

/// Within how many microseconds a message has to come after its session was parked, or after a thread began to wait for
/// it, so that a thread waits for the next one.
const SOON_PARKED: u64 = 500;

const SOON_HEARD: u64 = 1_000;

/// After how many messages a thread that stays with a session looks whether others are ready.
const TURNS: u32 = 16;

/// A stay of a thread with a session.
#[derive(Drop)]
struct Stay {
    /// When it began, in microseconds since the pool did.
    begun: u64,
    /// For how many messages the thread has waited since it last looked whether others are ready.
    turns: u32,
    /// Whether it ends with the message that was answered last, since others are ready.
    is_over: bool,
    /// For how many microseconds the thread has done nothing for the session: it waited for its next message, or looked
    /// at the sockets of others.
    apart: u64,
}

impl Stay {
    /// A stay that begins at this moment.
    fn new(begun: u64) -> Stay
        ensures { result ≡ record { begun = begun; turns = 0; is_over = false; apart = 0 } }
    {
        Stay {
            begun,
            turns: 0,
            is_over: false,
            apart: 0,
        }
    }

    /// The thread has done nothing for the session since this moment.
    fn set_apart(&mut self, since: u64, now: u64)
        ensures { self.new ≡ record self.old { apart = min (self.old.apart + (now - since)) 18446744073709551615 } }
    {
        self.apart = self.apart.saturating_add(now.saturating_sub(since));
    }

    /// For how many microseconds the thread has served the session.
    fn spent(&self, now: u64) -> u64
        ensures { result ≡ now - self.now.begun - self.now.apart }
    {
        now.saturating_sub(self.begun).saturating_sub(self.apart)
    }
}

/// Whether less than this many microseconds have gone by.
fn is_within<R: Clock>(rt: &R, since: Instant, limit: u64) -> bool {
    match Instant::now(rt) {
        Ok(now) => now.saturating_duration_since(since) < Duration::from_micros(limit),
        Err(_) => false,
    }
}

impl<'a, R: Wait + Clock, T: SessionObserver> SessionPool<'a, R, T> {
    /// Behind a message: looks which sockets are ready where that is due, and ends the stay where others are.
    fn look_around(&self, stay: &mut Stay) {
        let now = self.micros();
        let mut after = self.overview.what_follows(now, stay.begun);
        if after == After::Looks {
            self.look();
            let looked = self.micros();
            stay.set_apart(now, looked);
            after = self.overview.what_follows(looked, stay.begun);
        }
        if after == After::Ends {
            stay.is_over = true;
        }
    }

    /// Answers the next message, unless the stay is over, it may be an update, it is a bind that is to wait, or the
    /// client has to take first what it was answered. Whether it did.
    fn answer_next<D: Directory>(
        &self,
        pooled: &mut PooledSession,
        config: &Config,
        directory: &mut D,
        stay: &mut Stay,
    ) -> bool
        ensures same { IsSame pooled.old pooled.new }
        ensures answered { OnTrue result (AnswersNext D.allows (config_view config.now) (talk pooled.old)
            (talk pooled.new)
            directory.old directory.new) }
        ensures left { OnFalse result ((talk pooled.new ≡ talk pooled.old) × (directory.new ≡ directory.old)) }
        ensures delayed { IsDelayed pooled.old → IsFalse result }
    {
        if stay.is_over || pooled.is_delayed() {
            return false;
        }
        if pooled.due() != Due::Other || pooled.unsent().len() >= UNSENT {
            return false;
        }
        if pooled.is_search_next() && !self.relieve() {
            return false;
        }
        self.answer_and_tell(pooled, config, directory);
        self.look_around(stay);
        true
    }

    /// Answers whole messages that are no updates, at most 16, while the stay lasts and the client takes what it is
    /// answered.
    fn answer_some<D: Directory>(
        &self,
        pooled: &mut PooledSession,
        directory: &mut D,
        stay: &mut Stay,
    )
        ensures same { IsSame pooled.old pooled.new }
        ensures answers { AnswersSome D.allows (config_of (config_view self.now.config) pooled.old.number)
            (talk pooled.old)
            (talk pooled.new) directory.old directory.new 16 }
    {
        let config = Config {
            session: pooled.number(),
            ..self.config
        };
        for _count in 0..MESSAGES {
            if !self.answer_next(pooled, &config, directory, stay) {
                return;
            }
        }
    }

    /// Answers some messages, and writes what is unsent; what becomes of the session then.
    fn sit_once<D: Directory>(
        &self,
        pooled: &mut PooledSession,
        directory: &mut D,
        stay: &mut Stay,
    ) -> Then
        ensures same { IsSame pooled.old pooled.new }
        ensures sitting { Sitting D.allows (config_of (config_view self.now.config) pooled.old.number) (talk pooled.old)
            (talk pooled.new) directory.old directory.new }
        ensures becomes { Becomes (talk pooled.new) result }
    {
        self.answer_some(pooled, directory, stay);
        pooled.say(self.door.limits().write)
    }

    /// Whether the thread may wait for the next message of its session: where that comes soon, a seat is left to lead,
    /// and, each 16th time, no other session is ready and the door is open.
    fn may_linger(&self, pooled: &PooledSession, stay: &mut Stay) -> bool {
        if !pooled.is_quick {
            return false;
        }
        stay.turns = stay.turns.saturating_add(1);
        if stay.turns >= TURNS {
            stay.turns = 0;
            if self.overview.has_ready() || self.door.is_closed() {
                return false;
            }
        }
        self.overview.begin_wait()
    }

    /// Waits for the next octets of a session from this moment on, and until when; whether they came soon is noted.
    pub fn wait_for(
        &self,
        pooled: &mut PooledSession,
        buffer: &mut [u8],
        since: u64,
    ) -> (ReadOutcome, u64)
        ensures same { IsSame pooled.old pooled.new }
        ensures heard { HasHeard None None (talk pooled.old) buffer.new (talk pooled.new) result.0 }
    {
        let heard = pooled.hear(buffer, self);
        let now = self.micros();
        pooled.is_quick = match heard {
            ReadOutcome::Octets => now.saturating_sub(since) < SOON_HEARD,
            ReadOutcome::Nothing | ReadOutcome::Ends(_) => false,
        };
        (heard, now)
    }

    /// Waits for the next octets of a quick session.
    fn linger(&self, pooled: &mut PooledSession, buffer: &mut [u8], stay: &mut Stay) -> ReadOutcome
        ensures same { IsSame pooled.old pooled.new }
        ensures heard { HasHeard None None (talk pooled.old) buffer.new (talk pooled.new) result }
    {
        let since = self.micros();
        let (heard, now) = self.wait_for(pooled, buffer, since);
        self.overview.end_wait();
        stay.set_apart(since, now);
        heard
    }

    /// Reads a session's socket once, where the stay lasts and that is ready, or the thread may wait for it.
    fn hear_on(
        &self,
        pooled: &mut PooledSession,
        buffer: &mut [u8],
        is_ready: bool,
        stay: &mut Stay,
    ) -> ReadOutcome
        ensures same { IsSame pooled.old pooled.new }
        ensures heard { HasHeard None None (talk pooled.old) buffer.new (talk pooled.new) result }
    {
        if stay.is_over {
            return ReadOutcome::Nothing;
        }
        if is_ready {
            pooled.hear(buffer, self)
        } else if self.may_linger(pooled, stay) {
            self.linger(pooled, buffer, stay)
        } else {
            ReadOutcome::Nothing
        }
    }

    /// Serves a session for as long as its messages come one soon after the other, 256 sittings at most, and a
    /// millisecond where others are ready.
    fn attend<D: Directory>(
        &self,
        pooled: &mut PooledSession,
        directory: &mut D,
        buffer: &mut [u8],
        stay: &mut Stay,
    ) -> Then
        ensures same { IsSame pooled.old pooled.new }
        ensures attends { Attends D.allows (config_of (config_view self.now.config) pooled.old.number) (talk pooled.old)
            (talk pooled.new) directory.old directory.new result }
    {
        let mut is_ready = pooled.is_silent();
        let mut then = self.sit_once(pooled, directory, stay);
        for _sitting in 1..SITTINGS {
            let Then::Listens = then else {
                return then;
            };
            match self.hear_on(pooled, buffer, is_ready, stay) {
                ReadOutcome::Octets => then = self.sit_once(pooled, directory, stay),
                ReadOutcome::Nothing => return Then::Listens,
                ReadOutcome::Ends(end) => return Then::Ends(end),
            }
            is_ready = false;
        }
        then
    }

    /// Tells what has passed between a session and its client, and hands the session to where it belongs.
    pub fn dismiss(&self, mut pooled: PooledSession, then: Then) {
        self.teller.passed(pooled.take_traffic());
        match destination_of(&pooled, then) {
            Destination::Parks(queue) => self.park(pooled, queue),
            Destination::LinesUp(Turn::Seat) => self.queue(pooled),
            Destination::LinesUp(Turn::Update) => self.queue_update(pooled),
            Destination::Ends(end) => self.finish(pooled, end),
        }
    }

    /// Serves sessions by this directory, until the pool is closed.
    pub fn sit<D: Directory>(&self, mut directory: D) -> D
        ensures { HasAttendedSome D.allows (config_view self.now.config) directory result }
    {
        let mut buffer = [0u8; PIECE];
        for _ in self.rt.forever() {
            let Some(mut pooled) = self.next() else {
                return directory;
            };
            pooled.is_quick = is_within(self.rt, pooled.since(), SOON_PARKED);
            let mut stay = Stay::new(self.micros());
            let then = self.attend(&mut pooled, &mut directory, &mut buffer, &mut stay);
            let now = self.micros();
            pooled.charge(stay.spent(now), now);
            self.dismiss(pooled, then);
        }
        directory
    }
}
