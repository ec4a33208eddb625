//! What makes frames of items, or octets of short ones.
use crate::dialing::REFUSAL;
use bytes::Bytes;

/// Makes the frames of items, one item after the other. It is asked by the thread that sends, outside every lock.
pub trait Framing<T> {
    /// The frame that is first on each new stream. Where there is none now, the stream isn't used.
    fn greeting(&mut self) -> Option<Bytes>;

    /// The item whose frames are asked for next. What is left of the one before is given up.
    fn begin(&mut self, item: T);

    /// The next frame of that item, where there is one more. An item that can't be made a frame of, or not all of it,
    /// is lost, and this is told by whoever makes the frames.
    fn next_frame(&mut self) -> Option<Bytes>;

    /// The stream has failed that was taking frames: what is left of the item is given up, with the memory that it
    /// takes.
    fn fail(&mut self);

    /// The other end is there: it has answered, or it is one that never answers and its stream is open.
    fn heard(&mut self);

    /// The other end doesn't hear this one, for this reason: its stream is closed.
    fn refused(&mut self, why: [u8; REFUSAL]);

    /// The other end has been silent for too long: its stream is closed, and another one is made.
    fn silent(&mut self);
}

/// Spells short items, in a thread that has put one and outside every lock.
pub trait Spell<T> {
    /// Puts the octets of an item behind these. An item that can't be spelled is lost, and this is told by whoever
    /// spells.
    fn spell(&mut self, item: T, octets: &mut Vec<u8>);
}
