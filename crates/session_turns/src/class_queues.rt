//! Keeps the sessions that wait for a seat: for each class those that wait in it, first in, first out.
ghost use Rattle.std.specs.Prelude.{◌≡◌, ◌<◌, ◌≤◌, ◌++◌, ◌∷◌, [], List, length, drop, slice_get, IfOk};
ghost use Rattle.session_turns.specs.Turning.{queue, put, no_queues, is_before, older, oldest, least, is_class};
ghost use Rattle.session_turns.specs.Queued.{queued};
ghost use Rattle.session_turns.specs.private.Queued.{room_in};
ghost use Rattle.session_turns.specs.declared.owing.Class.{Class};

use crate::owing::Class;
use std::alloc::{AllocError, Global};
use std::collections::VecDeque;

/// A place whose session waits for a seat, and the number of its turn: who lines up later has a greater one.
#[derive(Clone, Copy, Debug)]
pub struct Waiting {
    pub turn: u64,
    pub place: usize,
}

/// The queues of all classes.
#[derive(Drop)]
pub struct ClassQueues {
    first: VecDeque<Waiting>,
    second: VecDeque<Waiting>,
    third: VecDeque<Waiting>,
    last: VecDeque<Waiting>,
}

/// The first of a queue.
fn first_in(queue: &VecDeque<Waiting>) -> Option<Waiting>
    ensures { result ≡ slice_get queue.now.items 0 }
{
    queue.front().copied()
}

/// Whether the first of one queue lined up before the first of another.
fn is_before(one: Option<Waiting>, other: Option<Waiting>) -> bool
    ensures { result ≡ is_before one other }
{
    match (one, other) {
        (Some(one), Some(other)) => one.turn < other.turn,
        (Some(_), None) => true,
        (None, _) => false,
    }
}

/// Whether two classes are one.
pub fn is_class(one: Class, other: Class) -> bool
    ensures { result ≡ is_class one other }
{
    match (one, other) {
        (Class::First, Class::First)
        | (Class::Second, Class::Second)
        | (Class::Third, Class::Third)
        | (Class::Last, Class::Last) => true,
        _ => false,
    }
}

impl ClassQueues {
    /// Queues in which nobody waits, with room for so many in each.
    pub fn new(alloc: Global, room: usize) -> Result<ClassQueues, AllocError>
        ensures empty { IfOk result (λ q. queued q ≡ no_queues) }
        ensures room { IfOk result (λ q. (class : Class) → room ≤ room_in q class) }
    {
        Ok(ClassQueues {
            first: VecDeque::with_capacity(alloc, room)?,
            second: VecDeque::with_capacity(alloc, room)?,
            third: VecDeque::with_capacity(alloc, room)?,
            last: VecDeque::with_capacity(alloc, room)?,
        })
    }

    /// The first of a class.
    fn first(&self, class: Class) -> Option<Waiting>
        ensures { result ≡ slice_get (queue (queued self.now) class) 0 }
    {
        match class {
            Class::First => first_in(&self.first),
            Class::Second => first_in(&self.second),
            Class::Third => first_in(&self.third),
            Class::Last => first_in(&self.last),
        }
    }

    /// One waits in a class, behind all others of it.
    pub fn push(&mut self, class: Class, waiting: Waiting)
        requires { length (queue (queued self.old) class) < room_in self.old class }
        ensures waits { queued self.new ≡ put (queued self.old) class (queue (queued self.old) class ++ waiting ∷ []) }
        ensures room { (any : Class) → room_in self.new any ≡ room_in self.old any }
    {
        match class {
            Class::First => self.first.push_back_reserved(waiting),
            Class::Second => self.second.push_back_reserved(waiting),
            Class::Third => self.third.push_back_reserved(waiting),
            Class::Last => self.last.push_back_reserved(waiting),
        }
    }

    /// Takes the first of a class.
    pub fn pop(&mut self, class: Class) -> Option<Waiting>
        ensures first { result ≡ slice_get (queue (queued self.old) class) 0 }
        ensures rest { queued self.new ≡ put (queued self.old) class (drop 1 (queue (queued self.old) class)) }
        ensures room { (any : Class) → room_in self.new any ≡ room_in self.old any }
    {
        match class {
            Class::First => self.first.pop_front(),
            Class::Second => self.second.pop_front(),
            Class::Third => self.third.pop_front(),
            Class::Last => self.last.pop_front(),
        }
    }

    /// Of two classes the one whose first has waited longer.
    fn older(&self, one: Class, other: Class) -> Class
        ensures { result ≡ older (queued self.now) one other }
    {
        if is_before(self.first(other), self.first(one)) {
            other
        } else {
            one
        }
    }

    /// The class whose first has waited longest of all.
    pub fn oldest(&self) -> Class
        ensures { result ≡ oldest (queued self.now) }
    {
        let upper = self.older(Class::First, Class::Second);
        let lower = self.older(Class::Third, Class::Last);
        self.older(upper, lower)
    }

    /// The least class in which one waits.
    pub fn least(&self) -> Class
        ensures { result ≡ least (queued self.now) }
    {
        if !self.first.is_empty() {
            Class::First
        } else if !self.second.is_empty() {
            Class::Second
        } else if !self.third.is_empty() {
            Class::Third
        } else {
            Class::Last
        }
    }
}
