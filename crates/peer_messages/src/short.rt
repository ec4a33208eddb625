//! Says which messages are short: those of which each update of the cluster makes some. They are sent at once.
ghost use Rattle.std.specs.Prelude.{IsTrue, IsFalse};
ghost use Rattle.ldap_op.specs.Written.{HasNoSpelling};
ghost use Rattle.peer_messages.specs.private.Short.{IsShort, IsShortRecord, IsUnspelled};

use peer_link::{Op, PeerMessage};
use vr_state::words::LogEntry;

/// How many octets the update of a short message has, at most.
const OCTETS: usize = 4_096;

/// Whether the update of a record is short.
fn is_short_record(entry: &LogEntry<Op>) -> bool
    ensures short { IsTrue result → IsShortRecord entry.now }
    ensures long { IsFalse result → IsShortRecord entry.now → HasNoSpelling entry.now.payload }
{
    match entry.payload.octets() {
        Some(octets) => octets.len() <= OCTETS,
        None => false,
    }
}

/// Whether a message is short, and goes without a note.
pub fn is_short(message: &PeerMessage<Op>) -> bool
    ensures short { IsTrue result → IsShort message.now }
    ensures long { IsFalse result → IsShort message.now → IsUnspelled message.now }
{
    match message {
        PeerMessage::Prepare { entry, .. } => is_short_record(entry),
        PeerMessage::PrepareOk { .. } | PeerMessage::Commit { .. } => true,
        _ => false,
    }
}
