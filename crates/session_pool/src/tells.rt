//! What a pool reports of sessions, and to whom.
use client_link::SessionEnd;
use session_table::Traffic;
use std::alloc::AllocError;
use std::net::SocketAddr;

/// Why a session was let go that did nothing wrong.
#[derive(Clone, Copy, Debug, PartialEq, Eq)]
pub enum Away {
    /// It was silent for longest when the table was full.
    Longest,
    /// The table was full when it came, and no session was silent.
    Full,
    /// The system had no descriptor for a further one, and it was silent for longest.
    NoDescriptor,
}

/// Who is told of sessions.
pub trait SessionObserver {
    /// A thread has begun that the pool can't do without: one that takes connections, one that reads, and one that
    /// updates.
    fn begins(&self);

    /// A client was let in from this address, as the session of this number, whose end will be told.
    fn came(&self, session: u64, address: SocketAddr);

    /// A session of this number ended so.
    fn ended(&self, session: u64, end: SessionEnd);

    /// A session of this number was let go.
    fn let_go(&self, session: u64, why: Away);

    /// A bind of a session of this number was refused with this result code. Its name is empty where it named nobody,
    /// and an error where there was no memory to keep it.
    fn refused(&self, session: u64, name: Result<&str, AllocError>, code: u8);

    /// A bind was accepted.
    fn bound(&self);

    /// This has passed between a session and its client, beside what was told of it before.
    fn passed(&self, traffic: Traffic);

    /// The client of an update that waits is gone: whoever waits for it is to look again. It is called under a lock,
    /// and waits for nobody.
    fn left(&self);
}
