// Why a session ends. A plain enum.

/// How a session ended.
#[derive(Clone, Copy, Debug, PartialEq, Eq)]
pub enum SessionEnd {
    /// The client unbound (RFC 4511 4.3).
    Unbound,
    /// The stream ended between two messages.
    EndOfInput,
    /// The stream ended inside a message.
    Truncated,
    /// The Notice of Disconnection was the last word (RFC 4511 4.4.1).
    Disconnected,
    /// The reader failed; all messages before are answered.
    ReadFailed,
    /// The writer failed, or a response was longer than a length can say.
    WriteFailed,
    NoMemory,
}
