//! The places of a pool's table, and the sessions at them: each waits for its client, or for its turn. One thread at a
//! time.
ghost use Rattle.std.specs.Prelude.{◌≡◌, ◌≤◌, ◌<◌, ◌++◌, ◌∷◌, [], ℕ, List, Option, Some, None, IsTrue, IsFalse, ◌↔◌, IfSome, IfNone, OnOk, OnErr, Err, IfErr, IfOk, IsOk, slice_get, replicate, nat_lt, length, vec_len, vec_capacity};
ghost use Rattle.std.specs.Option.{option_map};
ghost use Rattle.std.specs.VecDeque.{deque_capacity};
ghost use Rattle.session_turns.specs.Places.{IsIn, NoneIn};
ghost use Rattle.session_turns.specs.Turning.{nobody, how_many};
ghost use Rattle.session_turns.specs.declared.spot.Queue.{Queue};
ghost use Rattle.session_table.specs.Tokens.{token_of};
ghost use Rattle.session_table.specs.private.Stands.{times, places_in, once, is_made, is_free, is_ready, is_updates, is_waiting, is_in_queue, is_here, has_some};
ghost use Rattle.session_table.specs.private.Slots.{RousesAt, NotesAt};
ghost use Rattle.session_table.specs.declared.pooled.PooledSession.{PooledSession};
ghost use Rattle.session_table.specs.declared.place_state.PlaceState.{PlaceState};

use crate::place_state::{NoPlace, PlaceState, Roused, Turn};
use crate::pooled::{Notice, PooledSession};
use crate::tokens::token_of;
use crate::updaters::is_past;
use session_turns::{Book, Queue, Spot, Turns};
use std::alloc::{AllocError, Global};
use std::collections::VecDeque;
use std::os::fd::RawFd;
use std::time::{Duration, Instant};

/// The places of a table, and the sessions that are at their places.
#[derive(Drop)]
pub struct Places {
    /// Which places wait for their clients.
    book: Book,
    /// Where the session of each place is.
    stands: Vec<PlaceState>,
    /// The session at each place that was ever given; none, while a thread has it.
    sessions: Vec<Option<PooledSession>>,
    /// The places that were given and are free again.
    free: Vec<usize>,
    /// The places of sessions that wait for a seat, and of those that wait for a thread that updates.
    ready: Turns,
    updates: VecDeque<usize>,
    // A place is in each list once where it stands so, and never where it doesn't.
    ghost frees: { (p : ℕ) → times p free.items ≡ once is_free (slice_get stands.items p) },
    ghost readies: { (p : ℕ) → times p (places_in ready.queues) ≡ once is_ready (slice_get stands.items p) },
    ghost updating: { (p : ℕ) → times p updates.items ≡ once is_updates (slice_get stands.items p) },
    ghost waits: { (p : ℕ) → is_in_queue (slice_get book p) ≡ is_waiting (slice_get stands.items p) },
    // A session is at each place that says so, and at its own.
    ghost here: { (p : ℕ) → has_some (slice_get sessions.items p) ≡ is_here (slice_get stands.items p) },
    ghost own: { (p : ℕ) (g : PooledSession) → slice_get sessions.items p ≡ Some (Some g) → g.place ≡ p },
    ghost made: { (p : ℕ) → nat_lt p (length sessions.items) ≡ is_made (slice_get stands.items p) },
    ghost booked: { length book ≡ length stands.items },
    // The lists have room for all places.
    ghost room_free: { length stands.items ≤ vec_capacity free },
    ghost room_ready: { length stands.items ≤ ready.room },
    ghost room_updates: { length stands.items ≤ deque_capacity updates },
}

/// The session at a place waits for its client no more.
fn roused(pooled: &mut Option<PooledSession>, now: Instant, micros: u64) -> Option<Roused>
    ensures { RousesAt pooled.old micros pooled.new result }
{
    match pooled {
        Some(pooled) => {
            pooled.rouse(now);
            Some(Roused {
                fd: pooled.fd(),
                turn: pooled.turn(),
                class: pooled.class(micros),
            })
        }
        None => None,
    }
}

/// The first of a queue.
fn first_in(queue: &VecDeque<usize>) -> Option<usize>
    ensures some { IfSome result (λ p. (others : List ℕ) × (queue.now.items ≡ p ∷ others)) }
    ensures none { IfNone result (queue.now.items ≡ []) }
{
    match queue.front() {
        Some(place) => Some(*place),
        None => None,
    }
}

/// The session at a place is told this: how many octets are posted of it no more.
fn notified(pooled: &mut Option<PooledSession>, alloc: Global, notice: Notice) -> Option<u64>
    ensures { NotesAt pooled.old notice pooled.new result }
{
    match pooled {
        Some(pooled) => Some(pooled.take_note(alloc, notice)),
        None => None,
    }
}

impl Places {
    ghost use Rattle.session_table.specs.Tabling.{tabled, session_at, IsAt, IsFree, Claims, freed, Parks, LinesUp, Wakes, Sits, Works, WaitsLongest, WaitsFirst, IsLeaving, Rouses, NoneOverdue, LeavesTime, WaitsItsTurn, Notes};
    ghost use Rattle.session_table.specs.Posting.{IsPast};

    /// Places, all free. Room for sessions is made as they come.
    pub fn new(alloc: Global, size: usize) -> Result<Places, AllocError>
        ensures stands { IfOk result (λ t. (tabled t).stands ≡ replicate size PlaceState.New) }
        ensures ready { IfOk result (λ t. (tabled t).ready ≡ nobody size) }
        ensures updates { IfOk result (λ t. (tabled t).updates ≡ []) }
    {
        Ok(Places {
            book: Book::new(alloc, size)?,
            stands: vec![in alloc; PlaceState::New; size]?,
            sessions: Vec::new(alloc),
            free: Vec::with_capacity(alloc, size)?,
            ready: Turns::new(alloc, size)?,
            updates: VecDeque::with_capacity(alloc, size)?,
        })
    }

    /// Whether a thread has the session of this place.
    fn is_away(&self, place: usize) -> bool
        ensures { IsTrue result ↔ IsAt (tabled self.now) place PlaceState.Away }
    {
        match self.stands.get(place).copied() {
            Some(PlaceState::Away) => true,
            Some(
                PlaceState::New
                | PlaceState::Free
                | PlaceState::Waits
                | PlaceState::Ready
                | PlaceState::Updates,
            )
            | None => false,
        }
    }

    /// A free place, for a session that comes.
    pub fn claim(&mut self) -> Result<usize, NoPlace>
        ensures ok { IfOk result (λ p. Claims (tabled self.old) p (tabled self.new)) }
        ensures full { result ≡ Err NoPlace.Full → (p : ℕ) → IsFree (tabled self.old) p → ⊥ }
        ensures no_memory { result ≡ Err NoPlace.NoMemory → (p : ℕ) × IsFree (tabled self.old) p }
        ensures err { OnErr result (tabled self.new ≡ tabled self.old) }
    {
        match self.free.pop() {
            Some(place) => {
                self.stands[place] = PlaceState::Away;
                Ok(place)
            }
            None => self.make(),
        }
    }

    /// A place that was never given.
    fn make(&mut self) -> Result<usize, NoPlace>
        ensures ok { IfOk result (λ p. Claims (tabled self.old) p (tabled self.new)) }
        ensures full { result ≡ Err NoPlace.Full → (p : ℕ) → IsAt (tabled self.old) p PlaceState.New → ⊥ }
        ensures no_memory { result ≡ Err NoPlace.NoMemory → (p : ℕ) × IsFree (tabled self.old) p }
        ensures err { OnErr result (tabled self.new ≡ tabled self.old) }
    {
        let place = self.sessions.len();
        if place >= self.stands.len() {
            return Err(NoPlace::Full);
        }
        match self.sessions.push(None) {
            Ok(()) => {}
            Err(_) => return Err(NoPlace::NoMemory),
        }
        self.stands[place] = PlaceState::Away;
        Ok(place)
    }

    /// A place whose session is over is free again. Any other place stays as it is.
    pub fn free(&mut self, place: usize)
        ensures freed { IsAt (tabled self.old) place PlaceState.Away → tabled self.new ≡ freed (tabled self.old) place }
        ensures other { (IsAt (tabled self.old) place PlaceState.Away → ⊥) → tabled self.new ≡ tabled self.old }
    {
        if self.is_away(place) {
            self.free.push_reserved(place);
            self.stands[place] = PlaceState::Free;
        }
    }

    /// Puts a session at its place, where it waits for its client; it comes back where there is no memory, or where the
    /// place isn't its own.
    pub fn park(&mut self, pooled: PooledSession, queue: Queue) -> Result<(), PooledSession>
        ensures ok { OnOk result (Parks (tabled self.old) pooled queue (tabled self.new)) }
        ensures err { IfErr result (λ back. (back ≡ pooled) × (tabled self.new ≡ tabled self.old)) }
    {
        let place = pooled.place;
        if !self.is_away(place) {
            return Err(pooled);
        }
        match self.book.put(place, queue) {
            Ok(()) => {
                self.stands[place] = PlaceState::Waits;
                self.sessions[place] = Some(pooled);
                Ok(())
            }
            Err(_) => Err(pooled),
        }
    }

    /// Puts a session at its place, where it waits for its turn: for a seat behind all others of its class at this
    /// moment, in microseconds. It comes back where the place isn't its own.
    pub fn line_up(
        &mut self,
        pooled: PooledSession,
        turn: Turn,
        now: u64,
    ) -> Result<(), PooledSession>
        ensures ok { OnOk result (LinesUp (tabled self.old) pooled turn now (tabled self.new)) }
        ensures err { IfErr result (λ back. (back ≡ pooled) × (tabled self.new ≡ tabled self.old)) }
        ensures succeeds { IsAt (tabled self.old) pooled.place PlaceState.Away → IsOk result }
    {
        let place = pooled.place;
        if !self.is_away(place) {
            return Err(pooled);
        }
        let class = pooled.class(now);
        self.sessions[place] = Some(pooled);
        match turn {
            Turn::Seat => {
                self.stands[place] = PlaceState::Ready;
                self.ready.line_up(place, class);
                Ok(())
            }
            Turn::Update => {
                self.stands[place] = PlaceState::Updates;
                self.updates.push_back_reserved(place);
                Ok(())
            }
        }
    }

    /// Takes the session of a place that waits for its client; none, where it doesn't.
    pub fn wake(&mut self, place: usize) -> Option<PooledSession>
        ensures some { IfSome result (λ g. Wakes (tabled self.old) place g (tabled self.new)) }
        ensures none { IfNone result (IsAt (tabled self.old) place PlaceState.Waits → ⊥) }
        ensures left { IfNone result (tabled self.new ≡ tabled self.old) }
    {
        self.book.take(place)?;
        self.stands[place] = PlaceState::Away;
        self.sessions[place].take()
    }

    /// Takes the next session that waits for a seat: the one whose turn it is.
    pub fn next_ready(&mut self) -> Option<PooledSession>
        ensures some { IfSome result (λ g. Sits (tabled self.old) g (tabled self.new)) }
        ensures none { IfNone result (how_many (tabled self.old).ready ≡ 0) }
        ensures left { IfNone result (tabled self.new ≡ tabled self.old) }
    {
        let place = self.ready.take_next()?;
        self.stands[place] = PlaceState::Away;
        self.sessions[place].take()
    }

    /// Takes the next session that waits for a thread that updates: the one that has waited longest.
    pub fn next_update(&mut self) -> Option<PooledSession>
        ensures some { IfSome result (λ g. Works (tabled self.old) g (tabled self.new)) }
        ensures none { IfNone result ((tabled self.old).updates ≡ []) }
        ensures left { IfNone result (tabled self.new ≡ tabled self.old) }
    {
        let place = self.updates.pop_front()?;
        self.stands[place] = PlaceState::Away;
        self.sessions[place].take()
    }

    /// What the poll reports the socket of the session at a place by; none, where none is there.
    pub fn token_at(&self, place: usize) -> Option<usize>
        ensures { result ≡ option_map (λ g. token_of place g.number) (session_at (tabled self.now) place) }
    {
        if place >= self.sessions.len() {
            return None;
        }
        match &self.sessions[place] {
            Some(pooled) => Some(token_of(place, pooled.number)),
            None => None,
        }
    }

    /// The session that has waited longest for a thread that updates.
    fn oldest_update(&self) -> Option<&PooledSession>
        ensures some { IfSome result (λ g. WaitsFirst (tabled self.now) g.now) }
        ensures none { IfNone result ((tabled self.now).updates ≡ []) }
    {
        let place = first_in(&self.updates)?;
        self.sessions[place].as_ref()
    }

    /// Takes the session that has waited longest for a thread that updates, where that is so long.
    pub fn overdue_update(&mut self, limit: Duration, now: Instant) -> Option<PooledSession>
        ensures some { IfSome result (λ g. Works (tabled self.old) g (tabled self.new)) }
        ensures past { IfSome result (λ g. IsPast g.asked limit now) }
        ensures left { IfNone result (tabled self.new ≡ tabled self.old) }
    {
        let pooled = self.oldest_update()?;
        if !is_past(pooled.asked, limit, now) {
            return None;
        }
        self.next_update()
    }

    /// Whether the session of this place waits for its turn.
    fn waits_its_turn(&self, place: usize) -> bool
        ensures { IsTrue result ↔ WaitsItsTurn (tabled self.now) place }
    {
        match self.stands.get(place).copied() {
            Some(PlaceState::Ready | PlaceState::Updates) => true,
            Some(PlaceState::New | PlaceState::Free | PlaceState::Away | PlaceState::Waits)
            | None => false,
        }
    }

    /// The session of a place that waits for its turn is told this, and waits on. How many octets are posted of it no
    /// more; none, where no session waits for its turn there.
    pub fn notify(&mut self, alloc: Global, place: usize, notice: Notice) -> Option<u64>
        ensures some { IfSome result (λ _. Notes (tabled self.old) place notice (tabled self.new)) }
        ensures none { IfNone result (WaitsItsTurn (tabled self.old) place → ⊥) }
        ensures left { IfNone result (tabled self.new ≡ tabled self.old) }
    {
        if !self.waits_its_turn(place) {
            return None;
        }
        notified(&mut self.sessions[place], alloc, notice)
    }

    /// The session that has waited for its client longest of a queue.
    fn longest(&self, queue: Queue) -> Option<&PooledSession>
        ensures some { IfSome result (λ g. WaitsLongest (tabled self.now) queue g.now) }
        ensures none { IfNone result (NoneIn (tabled self.now).spots queue) }
    {
        let place = self.book.first(queue)?;
        self.sessions[place].as_ref()
    }

    /// The session of a place that is over, and whose client may still read.
    pub fn leaving(&self, place: usize) -> Option<&PooledSession>
        ensures some { IfSome result (λ g. IsLeaving (tabled self.now) place g.now) }
        ensures none { IfNone result ((turn : ℕ) → IsIn (tabled self.now).spots place Queue.Leaving turn → ⊥) }
    {
        let Some(
            Spot::In {
                queue: Queue::Leaving,
                turn: _,
            },
        ) = self.book.spot(place)
        else {
            return None;
        };
        self.sessions[place].as_ref()
    }

    /// The session of a place that waits for its client waits for its turn, for a seat behind all others of its class;
    /// its socket, and for what it waits. The moment comes as the system and as the pool tell it, in microseconds.
    /// None, where no session waits for its client there.
    pub fn rouse(&mut self, place: usize, now: Instant, micros: u64) -> Option<(RawFd, Turn)>
        ensures some { IfSome result (λ r. Rouses (tabled self.old) place r.1 micros (tabled self.new)) }
        ensures none { IfNone result (IsAt (tabled self.old) place PlaceState.Waits → ⊥) }
        ensures left { IfNone result (tabled self.new ≡ tabled self.old) }
    {
        self.book.take(place)?;
        let Roused { fd, turn, class } = roused(&mut self.sessions[place], now, micros)?;
        match turn {
            Turn::Seat => {
                self.stands[place] = PlaceState::Ready;
                self.ready.line_up(place, class);
                Some((fd, Turn::Seat))
            }
            Turn::Update => {
                self.stands[place] = PlaceState::Updates;
                self.updates.push_back_reserved(place);
                Some((fd, Turn::Update))
            }
        }
    }

    /// Takes the session that has waited longest of a queue, where that is so long.
    pub fn overdue(&mut self, queue: Queue, limit: Duration, now: Instant) -> Option<PooledSession>
        ensures longest { IfSome result (WaitsLongest (tabled self.old) queue) }
        ensures past { IfSome result (λ g. IsPast g.since limit now) }
        ensures wakes { IfSome result (λ g. Wakes (tabled self.old) g.place g (tabled self.new)) }
        ensures none { IfNone result (NoneOverdue (tabled self.old) queue limit now) }
        ensures left { IfNone result (tabled self.new ≡ tabled self.old) }
    {
        let pooled = self.longest(queue)?;
        if !is_past(pooled.since, limit, now) {
            return None;
        }
        let place = pooled.place;
        self.wake(place)
    }

    /// Takes the session that has waited longest of a queue.
    pub fn take_longest(&mut self, queue: Queue) -> Option<PooledSession>
        ensures longest { IfSome result (WaitsLongest (tabled self.old) queue) }
        ensures wakes { IfSome result (λ g. Wakes (tabled self.old) g.place g (tabled self.new)) }
        ensures none { IfNone result (NoneIn (tabled self.old).spots queue) }
        ensures left { IfNone result (tabled self.new ≡ tabled self.old) }
    {
        let place = self.longest(queue)?.place;
        self.wake(place)
    }

    /// How long until a session has waited in a queue for so long, at most.
    pub fn time_left(&self, queue: Queue, limit: Duration, now: Instant) -> Duration
        ensures { LeavesTime (tabled self.now) queue limit now result }
    {
        match self.longest(queue) {
            Some(pooled) => limit.saturating_sub(now.saturating_duration_since(pooled.since)),
            None => limit,
        }
    }

    /// How many sessions wait for a seat.
    pub fn ready(&self) -> usize
        ensures { result ≡ how_many (tabled self.now).ready }
    {
        self.ready.len()
    }

    /// Whether a session waits for a thread that updates.
    pub fn has_updates(&self) -> bool
        ensures { IsFalse result ↔ ((tabled self.now).updates ≡ []) }
    {
        !self.updates.is_empty()
    }
}
