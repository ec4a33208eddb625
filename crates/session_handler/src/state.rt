//! A session's state from message to message. Plain data.
ghost use Rattle.std.specs.Prelude.{◌≡◌};
ghost use Rattle.session_handler.specs.Session.{at_first, named_number, reading_from};

use request_checks::{Identity, Named};

/// A session's state.
#[derive(Clone, Copy)]
pub struct State {
    /// Who it is bound as.
    pub identity: Identity,
    /// The number of the last request of its own client, from 1; 0 before the first.
    pub requests: u64,
    /// The greatest number that it has seen, of its updates and of the states that its reads were answered from; 0
    /// before the first. It reads from there on, whichever seat serves it.
    pub floor: u64,
}

impl State {
    /// A session's state at its beginning.
    pub fn at_first() -> State
        ensures { result ≡ at_first }
    {
        State {
            identity: Identity::Anonymous,
            requests: 0,
            floor: 0,
        }
    }

    /// Reads from this number on, which it has seen or was told.
    pub fn read_from(&mut self, number: u64)
        ensures { self.new ≡ reading_from self.old number }
    {
        self.floor = self.floor.max(number);
    }

    /// The number that a read names.
    pub fn named_number(&self, named: Named) -> u64
        ensures { result ≡ named_number self.now named }
    {
        match named.number {
            Some(number) => self.floor.max(number),
            None => self.floor,
        }
    }
}
