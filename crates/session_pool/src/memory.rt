//! What sessions hold of the memory that they may take together: it is posted where a thread lays a session down, and
//! given back at its end. Whose session is ended where there is too little is decided in `session_turns`.
ghost use Rattle.client_link.specs.session_handler.View.{config_view};
ghost use Rattle.client_link.specs.Served.{config_of};
ghost use Rattle.session_table.specs.Attending.{talk, IsSame};
ghost use Rattle.session_pool.specs.Refused.{FindsNoRoom};

use crate::no_room::NoRoom;
use crate::pool::SessionPool;
use crate::tells::SessionObserver;
use client_link::{Config, SessionEnd};
use session_table::{MakesRoom, Notice, PooledSession};
use session_turns::Holder;
use std::sync::Wait;
use std::time::Clock;

impl<'a, R: Wait + Clock, T: SessionObserver> SessionPool<'a, R, T> {
    /// What a session holds is posted; whether it may go on: there is room for it, or others are ended for it. One that
    /// holds nothing may.
    pub fn admits(&self, pooled: &mut PooledSession) -> bool {
        pooled.post(self.budget);
        let own = pooled.holder();
        own.octets == 0 || self.has_room(own)
    }

    /// Ends sessions that hold more than this one until all hold no more than they may; false, where it is this one's
    /// turn to end.
    fn has_room(&self, own: Holder) -> bool {
        let mut has_room = true;
        for _ in self.rt.forever() {
            if !self.budget.is_over() {
                break;
            }
            let rather = self.table.lock(self.rt).rather(own);
            let Some(place) = rather else {
                has_room = !own.may_end();
                break;
            };
            self.end_at(place);
        }
        has_room
    }

    /// Ends anonymous sessions that hold most until an eighth of what all may hold is left, for the answer to a search;
    /// whether it is.
    pub fn relieve(&self) -> bool {
        let least = Holder {
            octets: u64::MAX,
            is_bound: true,
        };
        for _ in self.rt.forever() {
            if !self.budget.is_tight() {
                break;
            }
            let rather = self.table.lock(self.rt).rather(least);
            match rather {
                Some(place) => self.end_at(place),
                None => break,
            }
        }
        !self.budget.is_tight()
    }

    /// Answers a search for which there is no room, as one that found no memory.
    pub fn refuse_search(&self, pooled: &mut PooledSession)
        ensures same { IsSame pooled.old pooled.new }
        ensures refused { FindsNoRoom (config_of (config_view self.now.config) pooled.old.number) (talk pooled.old)
            (talk pooled.new) }
    {
        let config = Config {
            session: pooled.number(),
            ..self.config
        };
        let mut room = NoRoom;
        pooled.answer(self.alloc, &config, &mut room);
    }

    /// Ends the session at a place as one that ran out of memory, where one is there: at once where it waits for its
    /// client, else in its turn, when it holds nothing any more.
    fn end_at(&self, place: usize) {
        let mut table = self.table.lock(self.rt);
        let waiting = table.wake(place);
        let less = match &waiting {
            Some(_) => None,
            None => table.notify(self.alloc, place, Notice::Over(SessionEnd::NoMemory)),
        };
        drop(table);
        if let Some(less) = less {
            self.budget.post(less, 0);
            self.budget.count_end();
        }
        if let Some(pooled) = waiting {
            self.budget.count_end();
            self.end(pooled, SessionEnd::NoMemory);
        }
    }
}

impl<'a, R: Wait + Clock, T: SessionObserver> MakesRoom for SessionPool<'a, R, T> {
    fn makes_room(&self, own: Holder, more: u64) -> bool {
        self.budget.post(0, more);
        if self.has_room(own) {
            return true;
        }
        self.budget.post(more, 0);
        self.budget.count_end();
        false
    }
}
