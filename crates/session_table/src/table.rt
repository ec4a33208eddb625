//! What the threads of a pool share under one lock: the sessions that no thread serves, what they hold, the updates
//! that wait in threads, and whose turn it is.
ghost use Rattle.std.specs.Prelude.{◌≡◌, ℕ, ◌%◌, [], None, Some, Err, IfOk, IfErr, OnOk, OnErr, IfSome, IfNone, IsFalse, ◌↔◌, replicate, slice_set};
ghost use Rattle.std.specs.Option.{option_map};
ghost use Rattle.session_turns.specs.Holding.{IsRather, NoneRather};
ghost use Rattle.session_turns.specs.Places.{IsIn, NoneIn};
ghost use Rattle.session_turns.specs.Resting.{call_of, called};
ghost use Rattle.session_turns.specs.Turning.{how_many, nobody};
ghost use Rattle.session_turns.specs.declared.spot.Queue.{Queue};
ghost use Rattle.session_table.specs.Holding.{Holds};
ghost use Rattle.session_table.specs.Noting.{IsToldOf, IsNowhere, OwnsPlace, Leaves, Gives};
ghost use Rattle.session_table.specs.Posting.{posted, HasPost, IsGone, IsPast};
ghost use Rattle.session_table.specs.Tabling.{tabled, session_at, freed, IsAt, IsFree, Claims, Parks, LinesUp, Wakes, Sits, Works, WaitsLongest, Rouses, NoneOverdue, LeavesTime, WaitsItsTurn, Notes};
ghost use Rattle.session_table.specs.Tokens.{token_of};
ghost use Rattle.session_table.specs.declared.place_state.PlaceState.{PlaceState};
ghost use Rattle.session_table.specs.declared.place_state.Turn.{Turn};

use crate::place_state::{NoPlace, Turn};
use crate::places::Places;
use crate::pooled::{Dropped, Notice, PooledSession};
use crate::tokens::{place_in, token_of};
use crate::updaters::Updaters;
use ldap_session::SessionEnd;
use session_turns::{Call, Holder, Holders, Lead, Queue};
use std::alloc::{AllocError, Global};
use std::os::fd::RawFd;
use std::time::{Duration, Instant};

/// The sessions of a pool.
#[derive(Drop)]
pub struct Table {
    places: Places,
    /// What the sessions at their places hold. One that is there may hold more; one that isn't is looked for in vain.
    holders: Holders,
    updaters: Updaters,
    /// Which seats rest, and whether one waits for sockets or looks at them.
    pub lead: Lead,
    pub is_closed: bool,
}

/// What the poll has found of the client of a session whose update waits.
#[derive(Clone, Copy, Debug, PartialEq, Eq)]
pub enum ClientState {
    Gone,
    /// It sends no more.
    SendsNoMore,
}

/// What a thread does that has noted the state of a client.
#[derive(Clone, Copy, Debug, PartialEq, Eq)]
pub enum NoteOutcome {
    Nothing,
    /// It lets the update in this thread go.
    Leaves(usize),
    /// It takes back so many octets that were posted of the session.
    Gives(u64),
}

/// What a thread does that has dropped what the client of a session has sent that is over.
#[derive(Clone, Copy, Debug, PartialEq, Eq)]
pub enum Farewell {
    /// No session is over at this place.
    Elsewhere,
    /// Its client may send more, or its socket is closed.
    Nothing,
    /// There may be more to drop: the poll is asked again about this socket, by this token.
    AsksAgain(RawFd, usize),
}

impl Table {
    /// A table of so many places, all free, and so many threads that update. Room for sessions is made as they come.
    pub fn new(alloc: Global, size: usize, threads: usize) -> Result<Table, AllocError>
        ensures stands { IfOk result (λ t. (tabled t.places).stands ≡ replicate size PlaceState.New) }
        ensures ready { IfOk result (λ t. (tabled t.places).ready ≡ nobody size) }
        ensures updates { IfOk result (λ t. (tabled t.places).updates ≡ []) }
        ensures threads { IfOk result (λ t. posted t.updaters ≡ replicate threads None) }
    {
        Ok(Table {
            places: Places::new(alloc, size)?,
            holders: Holders::new(alloc, size)?,
            updaters: Updaters::new(alloc, threads)?,
            lead: Lead::new(),
            is_closed: false,
        })
    }

    /// A free place, for a session that comes.
    pub fn claim(&mut self) -> Result<usize, NoPlace>
        ensures ok { IfOk result (λ p. Claims (tabled self.old.places) p (tabled self.new.places)) }
        ensures full { result ≡ Err NoPlace.Full → (p : ℕ) → IsFree (tabled self.old.places) p → ⊥ }
        ensures err { OnErr result (tabled self.new.places ≡ tabled self.old.places) }
    {
        self.places.claim()
    }

    /// No session came to this place: it is free again. Any place stays as it is that no thread has.
    pub fn free(&mut self, place: usize)
        ensures freed { IsAt (tabled self.old.places) place PlaceState.Away
            → tabled self.new.places ≡ freed (tabled self.old.places) place }
        ensures other { (IsAt (tabled self.old.places) place PlaceState.Away → ⊥)
            → tabled self.new.places ≡ tabled self.old.places }
    {
        self.places.free(place);
    }

    /// A session is over that a thread has: its socket is closed before its place is free.
    pub fn end(&mut self, pooled: PooledSession)
        ensures freed { IsAt (tabled self.old.places) pooled.place PlaceState.Away
            → tabled self.new.places ≡ freed (tabled self.old.places) pooled.place }
        ensures other { (IsAt (tabled self.old.places) pooled.place PlaceState.Away → ⊥)
            → tabled self.new.places ≡ tabled self.old.places }
    {
        let place = pooled.place;
        drop(pooled);
        self.free(place);
    }

    /// Puts a session at its place, where it waits for its client; it comes back where there is no memory, or where the
    /// place isn't its own.
    pub fn park(&mut self, pooled: PooledSession, queue: Queue) -> Result<(), PooledSession>
        ensures ok { OnOk result (Parks (tabled self.old.places) pooled queue (tabled self.new.places)) }
        ensures holds { OnOk result (Holds self.old.holders pooled self.new.holders) }
        ensures err { IfErr result (λ back. (back ≡ pooled) × (tabled self.new.places ≡ tabled self.old.places)) }
        ensures left { OnErr result (self.new.holders ≡ self.old.holders) }
    {
        let (place, holder) = (pooled.place, pooled.holder());
        self.places.park(pooled, queue)?;
        self.holders.put(place, holder);
        Ok(())
    }

    /// Puts a session at its place of which a whole message stands next: it waits for a seat behind all others of its
    /// class at this moment. Whom its thread calls.
    pub fn queue(&mut self, pooled: PooledSession, now: u64) -> Result<Call, PooledSession>
        ensures ok { OnOk result (LinesUp (tabled self.old.places) pooled Turn.Seat now (tabled self.new.places)) }
        ensures holds { OnOk result (Holds self.old.holders pooled self.new.holders) }
        ensures calls { IfOk result (λ call. (call ≡ call_of self.old.lead) × (self.new.lead ≡ called self.old.lead)) }
        ensures err { IfErr result (λ back. (back ≡ pooled) × (tabled self.new.places ≡ tabled self.old.places)) }
        ensures left { OnErr result (self.new.holders ≡ self.old.holders) }
    {
        let (place, holder) = (pooled.place, pooled.holder());
        self.places.line_up(pooled, Turn::Seat, now)?;
        self.holders.put(place, holder);
        Ok(self.lead.line_up())
    }

    /// Puts a session at its place whose next message may be an update: it waits for a thread behind all others.
    pub fn queue_update(&mut self, pooled: PooledSession, now: u64) -> Result<(), PooledSession>
        ensures ok { OnOk result (LinesUp (tabled self.old.places) pooled Turn.Update now (tabled self.new.places)) }
        ensures holds { OnOk result (Holds self.old.holders pooled self.new.holders) }
        ensures err { IfErr result (λ back. (back ≡ pooled) × (tabled self.new.places ≡ tabled self.old.places)) }
        ensures left { OnErr result (self.new.holders ≡ self.old.holders) }
    {
        let (place, holder) = (pooled.place, pooled.holder());
        self.places.line_up(pooled, Turn::Update, now)?;
        self.holders.put(place, holder);
        Ok(())
    }

    /// Takes the session of a place that waits for its client; none, where it doesn't.
    pub fn wake(&mut self, place: usize) -> Option<PooledSession>
        ensures some { IfSome result (λ g. Wakes (tabled self.old.places) place g (tabled self.new.places)) }
        ensures none { IfNone result (IsAt (tabled self.old.places) place PlaceState.Waits → ⊥) }
        ensures left { IfNone result (tabled self.new.places ≡ tabled self.old.places) }
        ensures holders { self.new.holders ≡ slice_set self.old.holders place None }
    {
        self.holders.take(place);
        self.places.wake(place)
    }

    /// Takes the session that has waited longest of a queue.
    pub fn take_longest(&mut self, queue: Queue) -> Option<PooledSession>
        ensures longest { IfSome result (WaitsLongest (tabled self.old.places) queue) }
        ensures wakes { IfSome result (λ g. Wakes (tabled self.old.places) g.place g (tabled self.new.places)) }
        ensures none { IfNone result (NoneIn (tabled self.old.places).spots queue) }
        ensures left { IfNone result (tabled self.new.places ≡ tabled self.old.places) }
    {
        let pooled = self.places.take_longest(queue)?;
        self.holders.take(pooled.place);
        Some(pooled)
    }

    /// Takes the session that has waited longest of a queue, where that is so long.
    pub fn overdue(&mut self, queue: Queue, limit: Duration, now: Instant) -> Option<PooledSession>
        ensures longest { IfSome result (WaitsLongest (tabled self.old.places) queue) }
        ensures past { IfSome result (λ g. IsPast g.since limit now) }
        ensures wakes { IfSome result (λ g. Wakes (tabled self.old.places) g.place g (tabled self.new.places)) }
        ensures none { IfNone result (NoneOverdue (tabled self.old.places) queue limit now) }
        ensures left { IfNone result (tabled self.new.places ≡ tabled self.old.places) }
    {
        self.places.overdue(queue, limit, now)
    }

    /// Takes the session that has waited longest for a thread that updates, where that is so long.
    pub fn overdue_update(&mut self, limit: Duration, now: Instant) -> Option<PooledSession>
        ensures some { IfSome result (λ g. Works (tabled self.old.places) g (tabled self.new.places)) }
        ensures past { IfSome result (λ g. IsPast g.asked limit now) }
        ensures left { IfNone result (tabled self.new.places ≡ tabled self.old.places) }
    {
        self.places.overdue_update(limit, now)
    }

    /// Takes the next session that waits for a seat: the one whose turn it is.
    pub fn next_ready(&mut self) -> Option<PooledSession>
        ensures some { IfSome result (λ g. Sits (tabled self.old.places) g (tabled self.new.places)) }
        ensures none { IfNone result (how_many (tabled self.old.places).ready ≡ 0) }
        ensures left { IfNone result (tabled self.new.places ≡ tabled self.old.places) }
        ensures holders { IfSome result (λ g. self.new.holders ≡ slice_set self.old.holders g.place None) }
    {
        let pooled = self.places.next_ready()?;
        self.holders.take(pooled.place);
        Some(pooled)
    }

    /// Takes the next session whose update waits for a thread: the one that has waited longest. It waits in this thread
    /// from now on.
    pub fn next_update(&mut self, thread: usize) -> Option<PooledSession>
        ensures some { IfSome result (λ g. Works (tabled self.old.places) g (tabled self.new.places)) }
        ensures none { IfNone result ((tabled self.old.places).updates ≡ []) }
        ensures left { IfNone result (tabled self.new.places ≡ tabled self.old.places) }
        ensures posts { IfSome result (λ g. posted self.new.updaters ≡ slice_set (posted self.old.updaters) thread
            (Some (record { token = token_of g.place g.number; closed = g.closed }))) }
    {
        let pooled = self.places.next_update()?;
        self.holders.take(pooled.place);
        let token = token_of(pooled.place, pooled.number);
        self.updaters.post(thread, token, pooled.closed);
        Some(pooled)
    }

    /// The next update of a session that this thread has waits in it too.
    pub fn post(&mut self, thread: usize, pooled: &PooledSession)
        ensures posts { posted self.new.updaters ≡ slice_set (posted self.old.updaters) thread
            (Some (record { token = token_of pooled.now.place pooled.now.number; closed = pooled.now.closed })) }
        ensures stays { tabled self.new.places ≡ tabled self.old.places }
    {
        let token = token_of(pooled.place, pooled.number);
        self.updaters.post(thread, token, pooled.closed);
    }

    /// No update waits in this thread any more.
    pub fn unpost(&mut self, thread: usize)
        ensures { posted self.new.updaters ≡ slice_set (posted self.old.updaters) thread None }
    {
        self.updaters.unpost(thread);
    }

    /// A thread in which an update waits whose client has sent no more for so long; it is told of once.
    pub fn gone(&mut self, limit: Duration, now: Instant) -> Option<usize>
        ensures some { IfSome result (λ t. IsGone (posted self.old.updaters) limit now t) }
        ensures once { IfSome result (λ t. posted self.new.updaters ≡ slice_set (posted self.old.updaters) t None) }
        ensures none { IfNone result ((t : ℕ) → IsGone (posted self.old.updaters) limit now t → ⊥) }
    {
        self.updaters.gone(limit, now)
    }

    /// The session of a place that waits for its client waits for its turn; its socket, and for what it waits. The
    /// moment comes as the system and as the pool tell it, in microseconds. None, where no session waits for its client
    /// there.
    pub fn rouse(&mut self, place: usize, now: Instant, micros: u64) -> Option<(RawFd, Turn)>
        ensures some { IfSome result (λ r. Rouses (tabled self.old.places) place r.1 micros (tabled self.new.places)) }
        ensures none { IfNone result (IsAt (tabled self.old.places) place PlaceState.Waits → ⊥) }
        ensures left { IfNone result (tabled self.new.places ≡ tabled self.old.places) }
    {
        self.places.rouse(place, now, micros)
    }

    /// What the poll reports the socket of the session at a place by; none, where none is there.
    pub fn token_at(&self, place: usize) -> Option<usize>
        ensures { result ≡ option_map (λ g. token_of place g.number) (session_at (tabled self.now.places) place) }
    {
        self.places.token_at(place)
    }

    /// The session of a place that waits for its turn is told this, and waits on. How many octets are posted of it no
    /// more; none, where no session waits for its turn there.
    pub fn notify(&mut self, alloc: Global, place: usize, notice: Notice) -> Option<u64>
        ensures some { IfSome result (λ _. Notes (tabled self.old.places) place notice (tabled self.new.places)) }
        ensures none { IfNone result (WaitsItsTurn (tabled self.old.places) place → ⊥) }
        ensures left { IfNone result (tabled self.new.places ≡ tabled self.old.places) }
    {
        self.places.notify(alloc, place, notice)
    }

    /// Takes note of the state of a client, of which the poll has told by this token, where its session's update waits:
    /// in a thread, or for one.
    pub fn note(
        &mut self,
        alloc: Global,
        token: usize,
        state: ClientState,
        now: Instant,
    ) -> NoteOutcome
        ensures gone { state ≡ ClientState.Gone → (thread : ℕ) → HasPost (posted self.old.updaters) thread token
            → Leaves result }
        ensures told { IsNowhere (posted self.old.updaters) token → OwnsPlace (tabled self.old.places) token
            → WaitsItsTurn (tabled self.old.places) (token % 4294967296) → Gives result }
        ensures leaves { (thread : ℕ) → result ≡ NoteOutcome.Leaves thread
            → HasPost (posted self.old.updaters) thread token }
        ensures gives { (less : ℕ) → result ≡ NoteOutcome.Gives less
            → IsToldOf (tabled self.old.places) token (tabled self.new.places) }
    {
        match self.updaters.thread_of(token) {
            Some(thread) => self.note_in_thread(thread, state, now),
            None => self.note_in_queue(alloc, token, state, now),
        }
    }

    /// The same, where its update waits in this thread: it goes where the client is gone, or has sent no more for too
    /// long.
    fn note_in_thread(&mut self, thread: usize, state: ClientState, now: Instant) -> NoteOutcome
        ensures gone { state ≡ ClientState.Gone → result ≡ NoteOutcome.Leaves thread }
        ensures open { state ≡ ClientState.SendsNoMore → result ≡ NoteOutcome.Nothing }
    {
        match state {
            ClientState::Gone => NoteOutcome::Leaves(thread),
            ClientState::SendsNoMore => {
                self.updaters.close(thread, now);
                NoteOutcome::Nothing
            }
        }
    }

    /// The same, where its update waits for a thread: where the client is gone, no thread makes it.
    fn note_in_queue(
        &mut self,
        alloc: Global,
        token: usize,
        state: ClientState,
        now: Instant,
    ) -> NoteOutcome
        ensures stays { (thread : ℕ) → result ≡ NoteOutcome.Leaves thread → ⊥ }
        ensures told { OwnsPlace (tabled self.old.places) token
            → WaitsItsTurn (tabled self.old.places) (token % 4294967296) → Gives result }
        ensures gives { (less : ℕ) → result ≡ NoteOutcome.Gives less
            → IsToldOf (tabled self.old.places) token (tabled self.new.places) }
    {
        let place = place_in(token);
        if self.places.token_at(place) != Some(token) {
            return NoteOutcome::Nothing;
        }
        let notice = match state {
            ClientState::Gone => Notice::Over(SessionEnd::ReadFailed),
            ClientState::SendsNoMore => Notice::SendsNoMore(now),
        };
        match self.places.notify(alloc, place, notice) {
            Some(less) => NoteOutcome::Gives(less),
            None => NoteOutcome::Nothing,
        }
    }

    /// Drops what the client of a session has sent that is over. Where it sends no more, its socket is closed and its
    /// place is free.
    pub fn drop_input(&mut self, place: usize, buffer: &mut [u8]) -> Farewell
        ensures { result ≡ Farewell.Elsewhere → tabled self.new.places ≡ tabled self.old.places }
    {
        let Some(pooled) = self.places.leaving(place) else {
            return Farewell::Elsewhere;
        };
        match pooled.drop_input(buffer) {
            Dropped::All => Farewell::Nothing,
            Dropped::Much => { Farewell::AsksAgain(pooled.fd(), token_of(place, pooled.number)) }
            Dropped::Over => {
                self.close_at(place);
                Farewell::Nothing
            }
        }
    }

    /// The session of a place that waits there is over: its socket is closed before its place is free.
    fn close_at(&mut self, place: usize) {
        if let Some(pooled) = self.places.wake(place) {
            self.end(pooled);
        }
    }

    /// The place whose session is to be ended where one that holds this wants more.
    pub fn rather(&self, own: Holder) -> Option<usize>
        ensures some { IfSome result (IsRather self.now.holders own) }
        ensures none { IfNone result (NoneRather self.now.holders own) }
    {
        self.holders.rather(own)
    }

    /// How long until a session has waited in a queue for so long, at most.
    pub fn time_left(&self, queue: Queue, limit: Duration, now: Instant) -> Duration
        ensures { LeavesTime (tabled self.now.places) queue limit now result }
    {
        self.places.time_left(queue, limit, now)
    }

    /// How many sessions wait for a seat.
    pub fn ready(&self) -> usize
        ensures { result ≡ how_many (tabled self.now.places).ready }
    {
        self.places.ready()
    }

    /// Whether a session waits for a thread that updates.
    pub fn has_updates(&self) -> bool
        ensures { IsFalse result ↔ ((tabled self.now.places).updates ≡ []) }
    {
        self.places.has_updates()
    }
}
