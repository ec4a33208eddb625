//! What a message is among the responses to a search. A type.

use crate::record::Record;

/// What a message is among the responses to a search.
#[derive(Drop)]
pub enum Meant {
    /// An entry, as the record that is written of it.
    Entry(Record),
    /// The end, with its result code.
    Done(u32),
    /// Neither.
    Other,
}
