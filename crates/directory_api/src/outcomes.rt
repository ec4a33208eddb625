// The outcome of a read. Plain data.

/// What a read found, and the number of the last update that it saw.
#[derive(Drop)]
pub struct Found<A> {
    /// The number of the last update of the directory that the answer is of.
    pub at: u64,
    pub answer: A,
}

/// Why a read has no answer.
#[derive(Clone, Copy, Debug, PartialEq, Eq)]
pub enum LookError {
    /// The directory is only at this number, below the one that was named.
    NotYet { at: u64 },
    /// There is nothing to read any more.
    Gone,
    NoMemory,
}
