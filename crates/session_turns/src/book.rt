//! Where each place of a table stands.
ghost use Rattle.std.specs.Prelude.{◌≡◌, ℕ, List, replicate, slice_get, IfOk, IfSome, IfNone, OnOk, OnErr};
ghost use Rattle.session_turns.specs.Places.{IsAway, IsIn, IsLongest, NoneIn, HasPut, HasTaken};
ghost use Rattle.session_turns.specs.private.Listed.{place_at, AllTell};
ghost use Rattle.session_turns.specs.declared.spot.Queue.{Queue};
ghost use Rattle.session_turns.specs.declared.spot.Spot.{Spot};

use crate::queues::Queues;
use crate::spot::{Queue, Spot};
use std::alloc::{AllocError, Global};
use std::marker::Model;

/// Where each place of a table stands: in one queue, or away.
#[derive(Drop)]
pub struct Book {
    spots: Vec<Spot>,
    queues: Queues,
    turn: u64,
}

impl Model for Book {
    ghost Value = { List Spot };

    ghost view = { λ b. b.spots.items };

    ghost invariant = { λ b. AllTell b.spots.items (place_at b.queues) b.turn };
}

impl Book {
    /// A table of so many places, all away.
    pub fn new(alloc: Global, size: usize) -> Result<Book, AllocError>
        ensures { IfOk result (λ b. b ≡ replicate size Spot.Away) }
    {
        Ok(Book {
            spots: vec![in alloc; Spot::Away; size]?,
            queues: Queues::new(alloc),
            turn: 0,
        })
    }

    /// Where a place stands; none, where there is no such place.
    pub fn spot(&self, place: usize) -> Option<Spot>
        ensures { result ≡ slice_get self.now place }
    {
        self.spots.get(place).copied()
    }

    /// Puts a place that is away into a queue, behind all others. One that isn't stays where it is.
    pub fn put(&mut self, place: usize, queue: Queue) -> Result<(), AllocError>
        ensures ok { OnOk result (IsAway self.old place → HasPut self.old place queue self.new) }
        ensures other { (IsAway self.old place → ⊥) → self.new ≡ self.old }
        ensures err { OnErr result (self.new ≡ self.old) }
    {
        if let Some(Spot::Away) = self.spot(place) {
            if self.turn == u64::MAX {
                return Err(AllocError);
            }
            let turn = self.turn;
            self.queues.insert(queue, turn, place)?;
            self.spots[place] = Spot::In { queue, turn };
            self.turn = turn + 1;
        }
        Ok(())
    }

    /// Takes a place out of its queue, and tells the queue; none, where it stood in none.
    pub fn take(&mut self, place: usize) -> Option<Queue>
        ensures some { IfSome result (λ queue. HasTaken self.old place queue self.new) }
        ensures none { IfNone result ((queue : Queue) (turn : ℕ) → IsIn self.old place queue turn → ⊥) }
        ensures left { IfNone result (self.new ≡ self.old) }
    {
        match self.spot(place) {
            Some(Spot::In { queue, turn }) => {
                self.queues.remove(queue, turn);
                self.spots[place] = Spot::Away;
                Some(queue)
            }
            Some(Spot::Away) | None => None,
        }
    }

    /// The place that has stood longest in a queue.
    pub fn first(&self, queue: Queue) -> Option<usize>
        ensures some { IfSome result (λ p. IsLongest self.now queue p) }
        ensures none { IfNone result (NoneIn self.now queue) }
    {
        self.queues.first(queue)
    }
}
