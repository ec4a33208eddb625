//! The next line of an input. Plain data.

/// What an input begins with.
#[derive(Debug, Drop)]
pub enum Line {
    /// The input is at its end.
    End,
    /// A line without octets.
    Blank,
    /// A line that is this piece of a stream in hex.
    Piece(Vec<u8>),
}
