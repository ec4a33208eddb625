//! Decides whose turn at a seat it is: the first of the least class, and each eighth time who has waited longest of
//! all.
ghost use Rattle.std.specs.Prelude.{◌≡◌, ◌<◌, IfOk, IfNone};
ghost use Rattle.session_turns.specs.Turning.{how_many, nobody, lined_up, next_place, taken, EachIsTakenInTime, FirstOnesAreTakenSoon};
ghost use Rattle.session_turns.specs.declared.owing.Class.{Class};

use crate::class_queues::{ClassQueues, Waiting, is_class};
use crate::owing::Class;
use std::alloc::{AllocError, Global};
use std::marker::Model;

/// How many are taken before others that have waited longer, at most.
const PASSED: u32 = 7;

/// The sessions that wait for a seat, by their places.
#[derive(Drop)]
pub struct Turns {
    queues: ClassQueues,
    /// The number of the next turn.
    next: u64,
    /// How many were taken since the last one that had waited longest of all.
    passed: u32,
    /// How many wait, and for how many there is room.
    waiting: usize,
    room: usize,
}

impl Model for Turns {
    ghost use Rattle.session_turns.specs.Turning.{TurnsValue};
    ghost use Rattle.session_turns.specs.Queued.{queued};
    ghost use Rattle.session_turns.specs.private.Queued.{AreKept};

    ghost Value = { TurnsValue };

    ghost view = { λ t. record { queues = queued t.queues; next = t.next; passed = t.passed; room = t.room } };

    ghost invariant = { λ t. AreKept t.queues t.passed t.waiting t.room };
}

impl Turns {
    /// Nobody waits, and there is room for so many.
    pub fn new(alloc: Global, room: usize) -> Result<Turns, AllocError>
        ensures { IfOk result (λ t. t ≡ nobody room) }
    {
        Ok(Turns {
            queues: ClassQueues::new(alloc, room)?,
            next: 0,
            passed: 0,
            waiting: 0,
            room,
        })
    }

    /// How many wait.
    pub fn len(&self) -> usize
        ensures { result ≡ how_many self.now }
    {
        self.waiting
    }

    /// A session waits in its class, behind all others of it. It takes no memory.
    pub fn line_up(&mut self, place: usize, class: Class)
        requires { how_many self.old < self.old.room }
        ensures { self.new ≡ lined_up self.old place class }
    {
        let turn = self.next;
        self.queues.push(class, Waiting { turn, place });
        self.next = turn.saturating_add(1);
        self.waiting += 1;
    }

    /// Takes the session whose turn it is; none, where nobody waits.
    pub fn take_next(&mut self) -> Option<usize>
        ensures next { result ≡ next_place self.old }
        ensures taken { self.new ≡ taken self.old }
        ensures none { IfNone result (how_many self.old ≡ 0) }
    {
        let oldest = self.queues.oldest();
        let class = if self.passed >= PASSED {
            oldest
        } else {
            self.queues.least()
        };
        let waiting = self.queues.pop(class)?;
        self.passed = if is_class(class, oldest) {
            0
        } else {
            self.passed + 1
        };
        self.waiting -= 1;
        Some(waiting.place)
    }
}

/// Whoever waits is taken in time, whatever is lined up and taken: a law on the definitions, so its body is empty.
pub fn each_is_taken_in_time()
    ensures { EachIsTakenInTime }
{}

/// Who owes little is taken soon, whatever is lined up and taken: a law on the definitions, so its body is empty.
pub fn first_ones_are_taken_soon()
    ensures { FirstOnesAreTakenSoon }
{}
