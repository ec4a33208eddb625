//! What a message of another replica says of its sender.
ghost use Rattle.std.specs.Prelude.{◌≡◌};
ghost use Rattle.replica_clock.specs.Signs.{sign_of};

use vr_state::message::PeerMessage;

/// What a message of another replica says of its sender.
#[derive(Clone, Copy, Debug, PartialEq, Eq)]
pub enum Sign {
    /// It leads this view: a PREPARE, COMMIT, STARTVIEW or NEWSTATE of it.
    Leads { view_number: u64 },
    /// It has lost its state: a RECOVERY.
    Lost,
    /// It is sending a long message, of which a part came.
    Part,
    /// It has taken a part of a long message that goes to it.
    Taken,
    /// Nothing that a clock goes by.
    Other,
}

/// What a whole message says of its sender.
pub fn sign_of<P>(message: &PeerMessage<P>) -> Sign
    ensures { result ≡ sign_of message.now }
{
    match message {
        PeerMessage::Prepare { view_number, .. } => Sign::Leads {
            view_number: *view_number,
        },
        PeerMessage::Commit { view_number, .. } => Sign::Leads {
            view_number: *view_number,
        },
        PeerMessage::StartView { view_number, .. } => Sign::Leads {
            view_number: *view_number,
        },
        PeerMessage::NewState { view_number, .. } => Sign::Leads {
            view_number: *view_number,
        },
        PeerMessage::Recovery { .. } => Sign::Lost,
        _ => Sign::Other,
    }
}
