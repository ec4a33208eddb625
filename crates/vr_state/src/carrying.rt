//! Exchanges the log that a message carries.
ghost use Rattle.std.specs.Prelude.{◌≡◌};
ghost use Rattle.vr_state.specs.Carried.{carried_log, with_log};

use crate::log::Log;
use crate::message::PeerMessage;
use std::mem;

impl<P: Drop> PeerMessage<P> {
    /// Puts this log in the place of the whole log that a DOVIEWCHANGE or a STARTVIEW carries, and gives that one back.
    /// Another message stays as it is.
    pub fn replace_log(&mut self, log: Log<P>) -> Option<Log<P>>
        ensures new { self.new ≡ with_log log self.old }
        ensures old { result ≡ carried_log self.old }
    {
        match self {
            PeerMessage::DoViewChange { change, .. } => Some(mem::replace(&mut change.log, log)),
            PeerMessage::StartView { held, .. } => Some(mem::replace(&mut held.log, log)),
            _ => None,
        }
    }
}
