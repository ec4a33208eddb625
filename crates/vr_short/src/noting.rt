//! Notes a message: finds the number that goes with it.
ghost use Rattle.std.specs.Prelude.{◌≡◌, IfOk};
ghost use Rattle.vr_short.specs.Pairing.{note_of};
ghost use Rattle.vr_short.specs.private.Kinds.{GoesWith};
ghost use Rattle.vr_short.specs.Short.{left_out, shortened};

use crate::shortening::shorten;
use std::alloc::{AllocError, Global};
use vr_state::message::PeerMessage;
use vr_state::payload::Payload;

/// What goes with a message.
#[derive(Clone, Copy)]
enum Kind {
    /// How many records of its log are left out.
    Log,
    /// How many records its sender has committed.
    Start,
    /// Nothing.
    Other,
}

/// What goes with a message.
fn kind_of<P>(message: &PeerMessage<P>) -> Kind
    ensures { GoesWith result message.now }
{
    match message {
        PeerMessage::DoViewChange { .. } | PeerMessage::StartView { .. } => Kind::Log,
        PeerMessage::StartViewChange { .. } => Kind::Start,
        _ => Kind::Other,
    }
}

/// A message as it goes to a replica that has said that it has committed so much, and the number that goes with it: how
/// many records it leaves out, or, with a STARTVIEWCHANGE, how many this replica has committed. Its only error is want
/// of memory.
pub fn noted<P: Payload>(
    alloc: Global,
    message: PeerMessage<P>,
    said: u64,
    committed: u64,
) -> Result<(Option<u64>, PeerMessage<P>), AllocError>
    ensures { IfOk result (λ r. r ≡ (note_of said committed message, shortened (left_out said message) message)) }
{
    let kind = kind_of(&message);
    let (left_out, short) = shorten(alloc, message, said)?;
    let number = match kind {
        Kind::Log => Some(left_out),
        Kind::Start => Some(committed),
        Kind::Other => None,
    };
    Ok((number, short))
}
