//! Says what a message is sent for, where its sender would make it again for the same.
ghost use Rattle.std.specs.Prelude.{◌≡◌, ◌↔◌, IsTrue};
ghost use Rattle.peer_messages.specs.private.Errands.{AreForOne, change_of, errand_of, recovery_of};

use peer_link::PeerMessage;
use vr_state::message::Response;

/// A long message on its way to a replica, by what its sender would make it again for.
#[derive(Clone, Copy, Debug, PartialEq, Eq)]
pub enum Errand {
    /// A DOVIEWCHANGE of this view.
    Change { view_number: u64 },
    /// A log for a replica that recovers, and asked with this nonce.
    Recovery { nonce: u64 },
    /// The records of this view behind so many.
    State { view_number: u64, base: u64 },
}

/// What the answer to a recovery is sent for, where it holds a log.
fn recovery_of<P>(nonce: u64, response: &Response<P>) -> Option<Errand>
    ensures { result ≡ recovery_of nonce response.now.held }
{
    match &response.held {
        Some(_) => Some(Errand::Recovery { nonce }),
        None => None,
    }
}

/// What a message is sent for, where it would be made again for the same.
pub fn errand_of<P>(message: &PeerMessage<P>) -> Option<Errand>
    ensures { result ≡ errand_of message.now }
{
    match message {
        PeerMessage::DoViewChange { view_number, .. } => Some(Errand::Change {
            view_number: *view_number,
        }),
        PeerMessage::RecoveryResponse { nonce, response } => recovery_of(*nonce, response),
        PeerMessage::NewState {
            view_number,
            base,
            ..
        } => Some(Errand::State {
            view_number: *view_number,
            base: *base,
        }),
        _ => None,
    }
}

/// Whether a message is being sent for the same as another one.
pub fn are_for_one(sending: Option<Errand>, errand: Option<Errand>) -> bool
    ensures { IsTrue result ↔ AreForOne sending errand }
{
    match (sending, errand) {
        (Some(sending), Some(errand)) => sending == errand,
        _ => false,
    }
}

/// The view that a DOVIEWCHANGE is for; none, of another message.
pub fn change_of<P>(message: &PeerMessage<P>) -> Option<u64>
    ensures { result ≡ change_of message.now }
{
    match message {
        PeerMessage::DoViewChange { view_number, .. } => Some(*view_number),
        _ => None,
    }
}
