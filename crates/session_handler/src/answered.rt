//! What one message is answered with. Octets of responses, and whether the session goes on.
ghost use Rattle.std.specs.Prelude.{◌≡◌};
ghost use Rattle.session_handler.specs.Rows.{joined};

use crate::rows::Responses;

/// Whether the session goes on after a message.
#[derive(Clone, Copy)]
pub enum Next {
    GoesOn,
    /// The client unbound.
    Unbound,
    /// The Notice of Disconnection was the last word.
    Disconnected,
}

/// What a message is answered with.
pub struct Answered {
    /// The responses, written, in order.
    pub responses: Responses,
    pub next: Next,
}

// Not derived: see "What the gate takes" in docs/ARCHITECTURE.md.
impl Drop for Answered {
    fn drop(self) {
        let Answered {
            responses: _,
            next: _,
        } = self;
    }
}

impl Answered {
    /// The octets of the responses, one after the other.
    pub fn into_octets(self) -> Vec<u8>
        ensures { result.items ≡ joined self.responses }
    {
        let Answered { responses, next: _ } = self;
        responses.into_octets()
    }
}
