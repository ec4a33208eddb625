//! Items that wait to be sent. They come in at the back and leave at the front, or are forgotten.
ghost use Rattle.std.specs.Prelude.{◌≡◌, ◌<◌, ◌∷◌, [], length, drop, IfSome, IfNone, IfOk, IsTrue, IsFalse};
ghost use Rattle.peer_link.specs.Waiting.{HaveRoom, HasForgotten, IsReadyFor, HasCome};

use crate::weighted::Weighted;
use std::alloc::{AllocError, Global};
use std::collections::VecDeque;
use std::marker::Model;

/// Items in the order in which they came, at most so many and of at most so great a weight in all: an item too many
/// makes room by forgetting the oldest. The newest is always kept, however heavy it is.
pub struct MessageQueue<T> {
    items: VecDeque<Weighted<T>, Global>,
    most_items: usize,
    most_weight: usize,
    weight: usize,
}

// Not derived: see "What the gate takes" in docs/ARCHITECTURE.md.
impl<T: Drop> Drop for MessageQueue<T> {
    fn drop(self) {
        let MessageQueue {
            items: _,
            most_items: _,
            most_weight: _,
            weight: _,
        } = self;
    }
}

impl<T> Model for MessageQueue<T> {
    ghost use Rattle.std.specs.Prelude.{◌≡◌, ◌<◌, ◌≤◌, length};
    ghost use Rattle.std.specs.VecDeque.{deque_capacity};
    ghost use Rattle.peer_link.specs.Waiting.{QueueValue, weight_of};

    ghost Value = { QueueValue T };

    ghost view = { λ q. record { waiting = q.items.items; most_items = q.most_items; most_weight = q.most_weight } };

    ghost invariant = { λ q. (0 < q.most_items) × (q.most_items ≤ deque_capacity q.items)
        × (q.weight ≡ weight_of q.items.items) };
}

impl<T> MessageQueue<T> {
    /// An empty queue, with places for all the items that it may hold.
    pub fn new(
        alloc: Global,
        most_items: usize,
        most_weight: usize,
    ) -> Result<MessageQueue<T>, AllocError>
        requires { 0 < most_items }
        ensures { IfOk result (λ q. q ≡ record { waiting = []; most_items = most_items; most_weight = most_weight }) }
    {
        Ok(MessageQueue {
            items: VecDeque::with_capacity(alloc, most_items)?,
            most_items,
            most_weight,
            weight: 0,
        })
    }

    /// Whether an item of this weight is one too many, where others wait.
    fn is_full_for(&self, weight: usize) -> bool
        ensures full { IsTrue result → (0 < length self.now.waiting)
            × (HaveRoom self.now.most_items self.now.most_weight self.now.waiting weight → ⊥) }
        ensures ready { IsFalse result → IsReadyFor self.now weight }
    {
        if self.items.is_empty() {
            return false;
        }
        self.items.len() >= self.most_items
            || weight > self.most_weight
            || self.weight > self.most_weight - weight
    }

    /// The item at the front, which is the oldest, with its weight.
    pub fn pop(&mut self) -> Option<Weighted<T>>
        ensures some { IfSome result (λ w. self.old ≡ record self.new { waiting = w ∷ self.new.waiting }) }
        ensures none { IfNone result ((self.old.waiting ≡ []) × (self.new ≡ self.old)) }
    {
        let oldest = self.items.pop_front()?;
        self.weight -= oldest.weight;
        Some(oldest)
    }

    /// Whether nothing waits.
    pub fn is_empty(&self) -> bool
        ensures yes { IsTrue result → self.now.waiting ≡ [] }
        ensures no { IsFalse result → 0 < length self.now.waiting }
    {
        self.items.is_empty()
    }
}

impl<T: Drop> MessageQueue<T> {
    /// The oldest is no more.
    fn forget_oldest(&mut self)
        requires { 0 < length self.old.waiting }
        ensures { self.new ≡ record self.old { waiting = drop 1 self.old.waiting } }
    {
        if let Some(oldest) = self.items.pop_front() {
            self.weight -= oldest.weight;
        }
    }

    /// Forgets the oldest, as long as there is no room for an item of this weight.
    fn make_room(&mut self, weight: usize)
        ensures forgotten { HasForgotten self.old weight self.new }
        ensures room { IsReadyFor self.new weight }
    {
        while self.is_full_for(weight) {
            self.forget_oldest();
        }
    }

    /// An item at the back. The oldest are forgotten where there is no room for it. It takes no memory.
    #[tactic(auto, using(crate::proofs::Forgetting::weight_of_more))]
    pub fn push(&mut self, come: Weighted<T>)
        ensures { HasCome self.old come self.new }
    {
        let weight = come.weight;
        self.make_room(weight);
        self.weight += weight;
        self.items.push_back_reserved(come);
    }
}
