//! Where a place of a table stands. Plain enums.

/// The queues of a table.
#[derive(Clone, Copy, Debug, PartialEq, Eq)]
pub enum Queue {
    /// Those that wait for the beginning of a message.
    Silent,
    /// Those that wait for the rest of a message.
    Inside,
    /// Those that wait for the client to take an answer.
    Unsent,
    /// Those that are over, and whose client may still read.
    Leaving,
    /// Those whose next message is answered only later.
    Delayed,
}

/// Where a place stands.
#[derive(Clone, Copy, Debug)]
pub enum Spot {
    /// With whoever serves its session.
    Away,
    /// In this queue, since this turn.
    In { queue: Queue, turn: u64 },
}
