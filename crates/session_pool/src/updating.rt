//! Updates, in threads of their own, so that one that waits for other replicas holds up no read. What an update asks
//! for is below.
ghost use Rattle.client_link.specs.session_handler.View.{config_view};
ghost use Rattle.client_link.specs.Served.{config_of};
ghost use Rattle.session_table.specs.Attending.{talk, IsSame};
ghost use Rattle.session_pool.specs.Answering.{Answers};
ghost use Rattle.session_pool.specs.Refused.{IsRefused};
ghost use Rattle.session_pool.specs.Sittings.{HasUpdatedSome};

use crate::attending::PIECE;
use crate::no_node::NoNode;
use crate::pool::SessionPool;
use crate::tells::SessionObserver;
use client_link::{Config, Directory};
use session_table::{PooledSession, ReadOutcome, Then, token_of};
use std::sync::Wait;
use std::sync::atomic::Ordering;
use std::time::Clock;

/// How many updates of one session a thread makes in a row. Then the session lines up behind others.
const UPDATES: u32 = 256;

impl<'a, R: Wait + Clock, T: SessionObserver> SessionPool<'a, R, T> {
    /// The update of a session waits no more.
    pub fn unwatch(&self, thread: usize, pooled: &PooledSession) {
        self.table.lock(self.rt).unpost(thread);
        self.unwatch_end(pooled);
    }

    /// Answers the update of a session by what one is answered that finds no primary: it has waited for too long.
    pub fn refuse_update(&self, pooled: &mut PooledSession)
        ensures same { IsSame pooled.old pooled.new }
        ensures refused { IsRefused (config_of (config_view self.now.config) pooled.old.number) (talk pooled.old)
            (talk pooled.new) }
    {
        let config = Config {
            session: pooled.number(),
            ..self.config
        };
        let mut node = NoNode;
        pooled.answer(self.alloc, &config, &mut node);
    }

    /// Answers the next message of a session, for whose client's end this thread is watched.
    fn answer_one<D: Directory>(&self, thread: usize, pooled: &mut PooledSession, directory: &mut D)
        ensures same { IsSame pooled.old pooled.new }
        ensures answers { Answers D.allows (config_of (config_view self.now.config) pooled.old.number) (talk pooled.old)
            (talk pooled.new) directory.old directory.new }
    {
        let config = Config {
            session: pooled.number(),
            ..self.config
        };
        pooled.answer(self.alloc, &config, directory);
        self.unwatch(thread, pooled);
    }

    /// Has the client of a session watched whose next update this thread makes, without laying the session down.
    fn watch_next(&self, thread: usize, pooled: &PooledSession) {
        if let Some(leaves) = self.leaves.get(thread) {
            leaves.store(false, Ordering::SeqCst);
        }
        let token = token_of(pooled.place(), pooled.number());
        let mut table = self.table.lock(self.rt);
        table.post(thread, pooled);
        self.watcher.watch_end(pooled.fd(), token);
    }

    /// Whether no other session waits for a thread that updates.
    fn may_stay(&self) -> bool {
        let table = self.table.lock(self.rt);
        !table.is_closed && !table.has_updates()
    }

    /// Waits for the next octets of a quick session, where the thread may.
    fn stay(&self, pooled: &mut PooledSession, buffer: &mut [u8]) -> ReadOutcome
        ensures same { IsSame pooled.old pooled.new }
    {
        if !pooled.is_quick || !self.may_stay() || !self.overview.begin_stay(self.leaves.len()) {
            return ReadOutcome::Nothing;
        }
        let (heard, _now) = self.wait_for(pooled, buffer, self.micros());
        self.overview.end_stay();
        heard
    }

    /// What becomes of a session of which this has become behind an update: one that listens may be stayed with.
    fn becomes(&self, pooled: &mut PooledSession, buffer: &mut [u8], then: Then) -> Then
        ensures same { IsSame pooled.old pooled.new }
    {
        let Then::Listens = then else {
            return then;
        };
        match self.stay(pooled, buffer) {
            ReadOutcome::Octets => pooled.say(self.door.limits().write),
            ReadOutcome::Nothing => Then::Listens,
            ReadOutcome::Ends(end) => Then::Ends(end),
        }
    }

    /// Makes the updates of a session for as long as one comes soon after the other and no other session waits for a
    /// thread, 256 at most.
    fn attend_updates<D: Directory>(
        &self,
        thread: usize,
        pooled: &mut PooledSession,
        directory: &mut D,
        buffer: &mut [u8],
    ) -> Then
        ensures same { IsSame pooled.old pooled.new }
        ensures updated { HasUpdatedSome D.allows (config_view self.now.config) directory.old directory.new }
    {
        let limit = self.door.limits().write;
        self.answer_one(thread, pooled, directory);
        let mut then = pooled.say(limit);
        for _update in 1..UPDATES {
            then = self.becomes(pooled, buffer, then);
            if then != Then::Updates || !self.may_stay() {
                return then;
            }
            self.watch_next(thread, pooled);
            self.answer_one(thread, pooled, directory);
            then = pooled.say(limit);
        }
        then
    }

    /// Serves the updates of sessions by this directory, in the thread of this index, one message a time, until the
    /// pool is closed.
    pub fn update<D: Directory>(&self, thread: usize, mut directory: D) -> D
        ensures { HasUpdatedSome D.allows (config_view self.now.config) directory result }
    {
        let mut buffer = [0u8; PIECE];
        for _ in self.rt.forever() {
            let Some(mut pooled) = self.next_update(thread) else {
                return directory;
            };
            let then = self.attend_updates(thread, &mut pooled, &mut directory, &mut buffer);
            self.dismiss(pooled, then);
        }
        directory
    }
}
