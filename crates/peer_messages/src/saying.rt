//! Says how much a replica has said that it has committed. An atomic holds it as a number: 0 as long as the replica
//! isn't known to read notes, as one of an earlier version doesn't; else one more than it has said.
ghost use Rattle.std.specs.Prelude.{◌≡◌};
ghost use Rattle.peer_messages.specs.private.Saying.{after_asking, after_saying, committed_by, said_in, stored};

use peer_link::PeerMessage;

/// How much a replica has said; none where it isn't known to read notes.
pub fn said_in(number: u64) -> Option<u64>
    ensures { result ≡ said_in number }
{
    number.checked_sub(1)
}

/// What is stored where a replica asks whether it is heard: so it reads notes. Nothing, where that is known.
pub fn asked(number: u64) -> Option<u64>
    ensures { said_in (stored number result) ≡ after_asking (said_in number) }
{
    if number == 0 { Some(1) } else { None }
}

/// What is stored where a replica says that it has committed so much: nothing, of one that isn't known to read notes.
pub fn said(number: u64, committed: u64) -> Option<u64>
    ensures { said_in (stored number result) ≡ after_saying (said_in number) committed }
{
    match number {
        0 => None,
        _ => Some(committed.saturating_add(1)),
    }
}

/// How many records a message says that its sender has committed, if it says so, with the note that came before it.
pub fn committed_by<P>(message: &PeerMessage<P>, noted: Option<u64>) -> Option<u64>
    ensures { result ≡ committed_by message.now noted }
{
    match message {
        PeerMessage::Prepare { commit_number, .. } => Some(*commit_number),
        PeerMessage::Commit { commit_number, .. } => Some(*commit_number),
        PeerMessage::GetState { commit_number, .. } => Some(*commit_number),
        PeerMessage::DoViewChange { change, .. } => Some(change.commit_number),
        PeerMessage::StartView { held, .. } => Some(held.commit_number),
        PeerMessage::NewState { tail, .. } => Some(tail.commit_number),
        PeerMessage::Recovery { .. } => Some(0),
        PeerMessage::StartViewChange { .. } => noted,
        PeerMessage::PrepareOk { .. } => None,
        PeerMessage::RecoveryResponse { .. } => None,
    }
}
