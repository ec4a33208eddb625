//! Keeps what a session owes: the time that seats spent on its messages. A 64th of the time that goes by is forgiven.
ghost use Rattle.std.specs.Prelude.{◌≡◌};
ghost use Rattle.session_turns.specs.Owing.{nothing_owed, owes, charged, class_of, SmallSharesStayFirst};

/// In how many parts a microsecond is counted: a 64th of the time that goes by is forgiven, and nothing is rounded.
const PARTS: u64 = 64;

/// How many microseconds a session owes at most: after 82 seconds of silence each is of the first class again.
const MOST: u64 = 1_280_000;

/// Up to how many microseconds owed a session is of the first class, the second, and the third.
const FIRST: u64 = 5_000;

const SECOND: u64 = 40_000;

const THIRD: u64 = 320_000;

/// In which queue a session waits for a seat: the less it owes, the sooner it has its turn.
#[derive(Clone, Copy, Debug, PartialEq, Eq)]
pub enum Class {
    First,
    Second,
    Third,
    Last,
}

/// What a session owes, in 64ths of a microsecond, and when that was counted.
#[derive(Clone, Copy, Debug)]
pub struct Debt {
    owed: u64,
    at: u64,
}

impl Debt {
    /// A session that no seat has spent time on.
    pub fn new() -> Debt
        ensures { result ≡ nothing_owed }
    {
        Debt { owed: 0, at: 0 }
    }

    /// What is owed at a moment, in 64ths of a microsecond.
    fn owes(self, now: u64) -> u64
        ensures { result ≡ owes self now }
    {
        self.owed.saturating_sub(now.saturating_sub(self.at))
    }

    /// A seat has spent so many microseconds on the session's messages until now.
    pub fn charge(&mut self, used: u64, now: u64)
        ensures { self.new ≡ charged self.old used now }
    {
        let used = used.min(MOST) * PARTS;
        *self = Debt {
            owed: self
                .owes(now)
                .min(MOST * PARTS)
                .saturating_add(used)
                .min(MOST * PARTS),
            at: now.max(self.at),
        };
    }

    /// The class in which the session waits for a seat, at a moment.
    pub fn class(self, now: u64) -> Class
        ensures { result ≡ class_of self now }
    {
        let owes = self.owes(now);
        if owes <= FIRST * PARTS {
            Class::First
        } else if owes <= SECOND * PARTS {
            Class::Second
        } else if owes <= THIRD * PARTS {
            Class::Third
        } else {
            Class::Last
        }
    }
}

/// A session that takes at most a 64th of a seat's time, and 5 ms at once, stays of the first class: a law on the
/// definitions, so its body is empty.
pub fn small_shares_stay_first()
    ensures { SmallSharesStayFirst }
{}
