//! Says what messages weigh in a queue: about the memory that they take.
ghost use Rattle.std.specs.Prelude.{◌≡◌, length};
ghost use Rattle.peer_messages.specs.private.Weights.{records_held, records_in, weight_of};

use peer_link::{Op, PeerMessage};
use vr_state::message::Response;

/// What a message weighs without its records.
const MESSAGE: usize = 64;

/// What a record weighs beside its payload, which the node's log shares.
const RECORD: usize = 64;

/// How many records the answer to a recovery tells.
fn count_held(response: &Response<Op>) -> usize
    ensures { result ≡ length (records_held response.now.held) }
{
    match &response.held {
        Some(held) => held.log.len(),
        None => 0,
    }
}

/// How many records a message tells.
fn count_records(message: &PeerMessage<Op>) -> usize
    ensures { result ≡ length (records_in message.now) }
{
    match message {
        PeerMessage::Prepare { .. } => 1,
        PeerMessage::DoViewChange { change, .. } => change.log.len(),
        PeerMessage::StartView { held, .. } => held.log.len(),
        PeerMessage::NewState { tail, .. } => tail.log.len(),
        PeerMessage::RecoveryResponse { response, .. } => count_held(response),
        _ => 0,
    }
}

/// What a message weighs. No payload is looked at.
pub fn weight_of(message: &PeerMessage<Op>) -> usize
    ensures { result ≡ weight_of message.now }
{
    count_records(message)
        .saturating_mul(RECORD)
        .saturating_add(MESSAGE)
}
