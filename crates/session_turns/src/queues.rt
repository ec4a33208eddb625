//! The queues of a table: by the turn since which it stands there, each place.
ghost use Rattle.std.specs.Prelude.{◌≡◌, ◌&&◌, ℕ, cond, nat_eq, Some, None, IfSome, IfNone, IfOk, OnOk, OnErr};
ghost use Rattle.std.specs.BTreeMap.{get};
ghost use Rattle.std.specs.Ordering.{nat_cmp};
ghost use Rattle.session_turns.specs.private.Listed.{place_at, is_queue, IsFirstAt};
ghost use Rattle.session_turns.specs.declared.spot.Queue.{Queue};

use crate::spot::Queue;
use std::alloc::{AllocError, Global};
use std::collections::BTreeMap;

/// The places of one queue, by their turns.
pub type ByTurn = BTreeMap<u64, usize>;

/// All queues.
#[derive(Drop)]
pub struct Queues {
    silent: ByTurn,
    inside: ByTurn,
    unsent: ByTurn,
    leaving: ByTurn,
    delayed: ByTurn,
}

/// The place that has stood longest in a queue.
fn first_of(turns: &ByTurn) -> Option<usize>
    ensures some { IfSome result (λ p. IsFirstAt (get nat_cmp turns.now) p) }
    ensures none { IfNone result ((t : ℕ) → get nat_cmp turns.now t ≡ None) }
{
    match turns.first_key_value() {
        Some((_, place)) => Some(*place),
        None => None,
    }
}

impl Queues {
    /// Queues in which nothing stands.
    pub fn new(alloc: Global) -> Queues
        ensures { (queue : Queue) (t : ℕ) → place_at result queue t ≡ None }
    {
        Queues {
            silent: BTreeMap::new(alloc),
            inside: BTreeMap::new(alloc),
            unsent: BTreeMap::new(alloc),
            leaving: BTreeMap::new(alloc),
            delayed: BTreeMap::new(alloc),
        }
    }

    /// A place stands in a queue, since this turn.
    pub fn insert(&mut self, queue: Queue, turn: u64, place: usize) -> Result<(), AllocError>
        ensures ok { OnOk result ((q : Queue) (t : ℕ)
            → place_at self.new q t ≡ cond (is_queue queue q && nat_eq turn t) (Some place) (place_at self.old q t)) }
        ensures err { OnErr result ((q : Queue) (t : ℕ) → place_at self.new q t ≡ place_at self.old q t) }
    {
        match queue {
            Queue::Silent => self.silent.insert(turn, place)?,
            Queue::Inside => self.inside.insert(turn, place)?,
            Queue::Unsent => self.unsent.insert(turn, place)?,
            Queue::Leaving => self.leaving.insert(turn, place)?,
            Queue::Delayed => self.delayed.insert(turn, place)?,
        };
        Ok(())
    }

    /// What has stood in a queue since this turn stands there no more.
    pub fn remove(&mut self, queue: Queue, turn: u64)
        ensures { (q : Queue) (t : ℕ) → place_at self.new q t ≡ cond (is_queue queue q && nat_eq turn t) None
            (place_at self.old q t) }
    {
        match queue {
            Queue::Silent => self.silent.remove(&turn),
            Queue::Inside => self.inside.remove(&turn),
            Queue::Unsent => self.unsent.remove(&turn),
            Queue::Leaving => self.leaving.remove(&turn),
            Queue::Delayed => self.delayed.remove(&turn),
        };
    }

    /// The place that has stood longest in a queue.
    pub fn first(&self, queue: Queue) -> Option<usize>
        ensures some { IfSome result (λ p. IsFirstAt (place_at self.now queue) p) }
        ensures none { IfNone result ((t : ℕ) → place_at self.now queue t ≡ None) }
    {
        match queue {
            Queue::Silent => first_of(&self.silent),
            Queue::Inside => first_of(&self.inside),
            Queue::Unsent => first_of(&self.unsent),
            Queue::Leaving => first_of(&self.leaving),
            Queue::Delayed => first_of(&self.delayed),
        }
    }
}
