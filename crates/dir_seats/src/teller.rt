//! Tells what a node publishes, in any thread, without the node's lock: what a session is told with its role. Seats
//! learn it; they are not made here.
use crate::look::look;
use crate::rule::ShownFactory;
use crate::seat::{Seat, Told};
use std::marker::PhantomData;

/// Makes readers that know what was published when they were made. It knows no list itself, and a new reader knows none
/// before it looks: so what it tells was published at one step of the call.
pub struct Teller<N> {
    readers: ShownFactory,
    of: PhantomData<N>,
}

// Not derived: see "What the gate takes" in docs/ARCHITECTURE.md.
impl<N> Drop for Teller<N> {
    fn drop(self) {
        let Teller { readers: _, of: _ } = self;
    }
}

impl<N> Teller<N> {
    /// A teller of what the readers of this factory see.
    pub(crate) fn of_factory(readers: ShownFactory) -> Teller<N> {
        Teller {
            readers,
            of: PhantomData,
        }
    }

    /// The whole of what is published at one step of the call; none where each place for a reader is taken, or the
    /// publisher is gone. It waits for nobody.
    pub fn tell(&self) -> Option<Told<N>> {
        let reader = self.readers.reader().ok()?;
        let (reader, at) = look(reader)?;
        Some(Told::of_seat(Seat::of_reader(reader, at)))
    }
}
