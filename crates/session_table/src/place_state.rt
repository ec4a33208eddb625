//! Where the session of a place is. Plain types.
use session_turns::Class;
use std::os::fd::RawFd;

/// Where the session of a place is.
#[derive(Clone, Copy, Debug)]
pub enum PlaceState {
    /// No session was ever given this place.
    New,
    /// Nowhere: the place may be given to a session that comes.
    Free,
    /// With the thread that serves it.
    Away,
    /// At its place, where it waits for its client.
    Waits,
    /// At its place, where it waits for a seat.
    Ready,
    /// At its place, where it waits for a thread that updates.
    Updates,
}

/// Why no place is given to a session that comes.
#[derive(Clone, Copy, Debug)]
pub enum NoPlace {
    /// All are taken.
    Full,
    /// A place is free, and there is no memory for a session at it.
    NoMemory,
}

/// What a session waits for that waits for its turn.
#[derive(Clone, Copy, Debug, PartialEq, Eq)]
pub enum Turn {
    /// A seat.
    Seat,
    /// A thread that updates.
    Update,
}

/// A session that waits for its client no more: its socket, for what it waits now, and in which class.
#[derive(Clone, Copy, Debug)]
pub struct Roused {
    pub fd: RawFd,
    pub turn: Turn,
    pub class: Class,
}
