//! What stands next in a conversation, and what it came to. Plain enums.
use crate::end::SessionEnd;

/// What stands next in a conversation.
#[derive(Clone, Copy, Debug, PartialEq, Eq)]
pub enum Due {
    /// No whole message, or the conversation is over.
    Nothing,
    /// An update of the manager's whose controls don't refuse it: it may have to wait for other replicas.
    Update,
    /// Any other message, or what is no message: it is answered from what is there.
    Other,
}

/// What the next message came to.
#[derive(Clone, Copy, Debug, PartialEq, Eq)]
pub enum Step {
    /// No whole message stood next.
    Awaits,
    /// It is answered, and the conversation goes on.
    Answered,
    /// It was the last, or the conversation was over.
    Ends(SessionEnd),
}
