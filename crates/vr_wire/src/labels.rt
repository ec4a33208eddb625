//! What a part of a message tells beside the message's octets.

/// Whose message it is, and how many parts it has.
#[derive(Clone, Copy, Drop)]
pub struct Label {
    /// The sender's index.
    pub sender: u8,
    /// The sender's number for the message.
    pub number: u64,
    /// How many parts there are.
    pub count: u32,
}

/// A part of a message, whose octets are `P`.
#[derive(Drop)]
pub struct Portion<P> {
    pub label: Label,
    /// Which part it is, from 0.
    pub place: u32,
    /// What it holds of the message.
    pub piece: P,
}
