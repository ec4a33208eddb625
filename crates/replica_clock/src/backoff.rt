//! Decides how long to wait before a stream is dialed again.
ghost use Rattle.std.specs.Prelude.{◌≡◌, ◌*◌, ◌≤◌, min};

/// The first wait, in milliseconds.
const FIRST: u64 = 50;

/// The longest wait, in milliseconds.
const LONGEST: u64 = 500;

/// How long to wait after failures in a row: 50 ms at first, then twice as long each time, half a second at most.
#[derive(Clone, Copy, Debug, PartialEq, Eq)]
pub struct Backoff {
    next: u64,
    ghost short: { next ≤ 500 },
}

impl Backoff {
    /// Nothing has failed.
    pub fn new() -> Backoff
        ensures { result.next ≡ 50 }
    {
        Backoff { next: FIRST }
    }

    /// How long to wait after one more failure, in milliseconds.
    pub fn rest(&mut self) -> u64
        ensures rest { result ≡ self.old.next }
        ensures next { self.new.next ≡ min (2 * self.old.next) 500 }
    {
        let rest = self.next;
        *self = Backoff {
            next: (2 * rest).min(LONGEST),
        };
        rest
    }
}
