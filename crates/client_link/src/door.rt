//! What those who take connections and those who serve them know of each other: who waits for a place, and whether the
//! server closes.
use crate::limits::Limits;
use crate::seats::Seats;
use std::sync::atomic::{AtomicBool, Ordering};
use std::sync::{Mutex, Wait};

/// The door of a server: who waits behind it, and whether it is closed for good.
#[derive(Drop)]
pub struct Door {
    seats: Mutex<Seats>,
    is_closed: AtomicBool,
    limits: Limits,
}

impl Door {
    /// An open door, at which nobody waits.
    pub fn new(limits: Limits) -> Door {
        Door {
            seats: Mutex::new(Seats::new()),
            is_closed: AtomicBool::new(false),
            limits,
        }
    }

    pub fn limits(&self) -> Limits {
        self.limits
    }

    /// A client waits for a place.
    pub fn wait<R: Wait>(&self, rt: &R) {
        self.seats.lock(rt).wait();
    }

    /// A client that waited has one.
    pub fn sit<R: Wait>(&self, rt: &R) {
        self.seats.lock(rt).sit();
    }

    /// Gives up a place, where a client waits for whom none is given up yet; whether it does.
    pub fn give_up<R: Wait>(&self, rt: &R) -> bool {
        self.seats.lock(rt).give_up()
    }

    /// Nobody is let in any more, and whoever is in has to go.
    pub fn shut(&self) {
        self.is_closed.store(true, Ordering::SeqCst);
    }

    pub fn is_closed(&self) -> bool {
        self.is_closed.load(Ordering::SeqCst)
    }
}
