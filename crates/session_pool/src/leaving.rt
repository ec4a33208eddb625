//! Closes the sockets of sessions that are over so that clients get all answers: the system resets a connection that is
//! closed with unread input, and what is on its way is lost. No thread waits for that.
use crate::pool::SessionPool;
use crate::tells::SessionObserver;
use client_link::SessionEnd;
use session_table::{Farewell, PooledSession, Table};
use session_turns::Queue;
use std::sync::Wait;
use std::time::{Clock, Instant};

/// For how many milliseconds a client may send whose session is over. What comes is dropped.
pub const FAREWELL: u64 = 1_000;

/// How many octets are dropped at once, at most.
const PIECE: usize = 8192;

/// Whether the client of a session that ends so may still send, and what it has sent may be unread: none, some that has
/// come, or what comes later.
#[derive(Clone, Copy, Debug, PartialEq, Eq)]
enum Unread {
    Nothing,
    Perhaps,
    Surely,
}

fn unread_at(end: SessionEnd) -> Unread {
    match end {
        SessionEnd::Disconnected => Unread::Surely,
        SessionEnd::Unbound | SessionEnd::ReadFailed | SessionEnd::NoMemory => Unread::Perhaps,
        SessionEnd::EndOfInput | SessionEnd::Truncated | SessionEnd::WriteFailed => Unread::Nothing,
    }
}

impl<'a, R: Wait + Clock, T: SessionObserver> SessionPool<'a, R, T> {
    /// A session is over: its socket is closed before its place is free.
    pub fn close(&self, mut pooled: PooledSession) {
        pooled.give_back(self.budget);
        self.table.lock(self.rt).end(pooled);
    }

    /// A session is over, and its socket is closed at once.
    pub fn end(&self, pooled: PooledSession, end: SessionEnd) {
        let number = pooled.number();
        self.close(pooled);
        self.teller.ended(number, end);
    }

    /// A session is over that a thread has. Where its client may have sent more than was read, its socket is closed
    /// once the client has closed it too, after a second at most.
    pub fn finish(&self, mut pooled: PooledSession, end: SessionEnd) {
        let unread = unread_at(end);
        let Ok(now) = Instant::now(self.rt) else {
            return self.end(pooled, end);
        };
        if unread == Unread::Nothing {
            return self.end(pooled, end);
        }
        pooled.give_back(self.budget);
        match pooled.retire(self.alloc, now) {
            Ok(()) => {}
            Err(_) => return self.end(pooled, end),
        }
        if unread == Unread::Perhaps && !pooled.has_unread() {
            return self.end(pooled, end);
        }
        self.teller.ended(pooled.number(), end);
        if let Some(pooled) = self.put_at_place(pooled, Queue::Leaving) {
            self.close(pooled);
        }
    }

    /// Drops what the client of a session has sent that is over. Whether such a session is at this place.
    pub fn drop_input(&self, table: &mut Table, place: usize) -> bool {
        let mut buffer = [0u8; PIECE];
        match table.drop_input(place, &mut buffer) {
            Farewell::Elsewhere => false,
            Farewell::Nothing => true,
            Farewell::AsksAgain(fd, token) => {
                self.watcher.ask_again(fd, token);
                true
            }
        }
    }
}
