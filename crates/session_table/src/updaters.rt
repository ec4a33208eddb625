//! The sessions whose updates wait in threads of their own, and which of their clients send no more. One thread at a
//! time.
ghost use Rattle.std.specs.Prelude.{◌≡◌, ◌≤◌, ◌-◌, ◌↔◌, ℕ, IsTrue, IfOk, IfSome, IfNone, None, Some, length, replicate, slice_get, slice_set};
ghost use Rattle.std.specs.Duration.{as_nanos};
ghost use Rattle.std.specs.Time.{instant_nanos};
ghost use Rattle.session_table.specs.Posting.{posted, post_of, closed_post, IsPast, IsClosedFor, HasPost, IsOpen, IsGone};

use std::alloc::{AllocError, Global};
use std::time::{Duration, Instant};

/// A session whose update waits in a thread.
#[derive(Clone, Copy, Debug)]
pub struct Updater {
    /// What the poll reports its socket by.
    token: usize,
    /// Since when its client sends no more, where that is so.
    closed: Option<Instant>,
}

/// The session at each thread that updates.
#[derive(Drop)]
pub struct Updaters {
    updaters: Vec<Option<Updater>>,
}

impl Updater {
    /// Whether its client has sent no more for so long.
    fn is_closed_for(self, limit: Duration, now: Instant) -> bool
        ensures { IsTrue result ↔ IsClosedFor self limit now }
    {
        match self.closed {
            Some(since) => is_past(since, limit, now),
            None => false,
        }
    }
}

/// Whether it was for so long.
pub fn is_past(since: Instant, limit: Duration, now: Instant) -> bool
    ensures { IsTrue result ↔ IsPast since limit now }
{
    now.saturating_duration_since(since).as_nanos() >= limit.as_nanos()
}

impl Updaters {
    /// So many threads, in which no update waits.
    pub fn new(alloc: Global, threads: usize) -> Result<Updaters, AllocError>
        ensures { IfOk result (λ p. posted p ≡ replicate threads None) }
    {
        Ok(Updaters {
            updaters: vec![in alloc; None; threads]?,
        })
    }

    /// The update of the session of this token waits in this thread; its client may send more, or has sent no more
    /// since then.
    pub fn post(&mut self, thread: usize, token: usize, closed: Option<Instant>)
        ensures { posted self.new ≡ slice_set (posted self.old) thread
            (Some (record { token = token; closed = closed })) }
    {
        if thread < self.updaters.len() {
            self.updaters[thread] = Some(Updater { token, closed });
        }
    }

    /// No update waits in this thread any more.
    pub fn unpost(&mut self, thread: usize)
        ensures { posted self.new ≡ slice_set (posted self.old) thread None }
    {
        if thread < self.updaters.len() {
            self.updaters[thread] = None;
        }
    }

    /// The session whose update waits in this thread.
    fn post_at(&self, thread: usize) -> Option<Updater>
        ensures some { IfSome result (λ p. slice_get (posted self.now) thread ≡ Some (Some p)) }
        ensures none { IfNone result ((p : Updater) → slice_get (posted self.now) thread ≡ Some (Some p) → ⊥) }
    {
        match self.updaters.get(thread).copied() {
            Some(Some(post)) => Some(post),
            Some(None) | None => None,
        }
    }

    /// Whether the update of the session of this token waits in this thread.
    fn is_at(&self, thread: usize, token: usize) -> bool
        ensures { IsTrue result ↔ HasPost (posted self.now) thread token }
    {
        match self.post_at(thread) {
            Some(post) => post.token == token,
            None => false,
        }
    }

    /// The first thread in which the update of the session of this token waits.
    pub fn thread_of(&self, token: usize) -> Option<usize>
        ensures some { IfSome result (λ t. HasPost (posted self.now) t token) }
        ensures none { IfNone result ((t : ℕ) → HasPost (posted self.now) t token → ⊥) }
    {
        for thread in 0..self.updaters.len() {
            if self.is_at(thread, token) {
                return Some(thread);
            }
        }
        None
    }

    /// The client of the update in this thread sends no more. Since when, is kept from the first time that it is told.
    pub fn close(&mut self, thread: usize, now: Instant)
        ensures open { (token : ℕ) → IsOpen (posted self.old) thread token
            → posted self.new ≡ slice_set (posted self.old) thread (Some (closed_post token now)) }
        ensures other { ((token : ℕ) → IsOpen (posted self.old) thread token → ⊥) → posted self.new ≡ posted self.old }
    {
        if let Some(
            Updater {
                token,
                closed: None,
            },
        ) = self.post_at(thread)
        {
            self.updaters[thread] = Some(Updater {
                token,
                closed: Some(now),
            });
        }
    }

    /// Whether the client of the update in this thread has sent no more for so long.
    fn is_gone(&self, thread: usize, limit: Duration, now: Instant) -> bool
        ensures { IsTrue result ↔ IsGone (posted self.now) limit now thread }
    {
        match self.post_at(thread) {
            Some(post) => post.is_closed_for(limit, now),
            None => false,
        }
    }

    /// The first thread in which an update waits whose client has sent no more for so long.
    fn first_gone(&self, limit: Duration, now: Instant) -> Option<usize>
        ensures some { IfSome result (λ t. IsGone (posted self.now) limit now t) }
        ensures none { IfNone result ((t : ℕ) → IsGone (posted self.now) limit now t → ⊥) }
    {
        for thread in 0..self.updaters.len() {
            if self.is_gone(thread, limit, now) {
                return Some(thread);
            }
        }
        None
    }

    /// A thread in which an update waits whose client has sent no more for so long; it is told of once.
    pub fn gone(&mut self, limit: Duration, now: Instant) -> Option<usize>
        ensures some { IfSome result (λ t. IsGone (posted self.old) limit now t) }
        ensures once { IfSome result (λ t. posted self.new ≡ slice_set (posted self.old) t None) }
        ensures none { IfNone result ((t : ℕ) → IsGone (posted self.old) limit now t → ⊥) }
        ensures left { IfNone result (posted self.new ≡ posted self.old) }
    {
        let thread = self.first_gone(limit, now)?;
        self.unpost(thread);
        Some(thread)
    }
}
