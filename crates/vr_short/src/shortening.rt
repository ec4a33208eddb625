//! A message without the first records of its log.
ghost use Rattle.std.specs.Prelude.{◌≡◌, ◌≤◌, min, length, IfOk};
ghost use Rattle.vr_world.specs.Beginnings.{log_in};
ghost use Rattle.vr_short.specs.Short.{left_out, shortened};

use std::alloc::{AllocError, Global};
use vr_state::log::Log;
use vr_state::message::PeerMessage;
use vr_state::payload::Payload;

/// How many records of a log are left out.
fn most_of<P: Payload>(most: u64, commit_number: u64, log: &Log<P>) -> u64
    ensures { result ≡ min most (min commit_number (length log.now)) }
{
    most.min(commit_number.min(log.len() as u64))
}

/// How many records are left out of a message.
fn left_out<P: Payload>(most: u64, message: &PeerMessage<P>) -> u64
    ensures { result ≡ left_out most message.now }
{
    match message {
        PeerMessage::DoViewChange { change, .. } => {
            most_of(most, change.commit_number, &change.log)
        }
        PeerMessage::StartView { held, .. } => most_of(most, held.commit_number, &held.log),
        _ => 0,
    }
}

/// A message without the first records of its log; it copies pointers to the payloads of the others.
fn without_first<P: Payload>(
    alloc: Global,
    mut message: PeerMessage<P>,
    base: u64,
) -> Result<PeerMessage<P>, AllocError>
    requires { base ≤ length (log_in message) }
    ensures { IfOk result (λ short. short ≡ shortened base message) }
{
    if let Some(log) = message.replace_log(Log::new(alloc)) {
        let behind = log.copy_after(alloc, base as usize)?;
        message.replace_log(behind);
    }
    Ok(message)
}

/// How many records are left out of a message to a replica that has said that it has committed at least so many, and
/// the message without them. Its only error is want of memory.
pub fn shorten<P: Payload>(
    alloc: Global,
    message: PeerMessage<P>,
    most: u64,
) -> Result<(u64, PeerMessage<P>), AllocError>
    ensures { IfOk result (λ r. r ≡ (left_out most message, shortened (left_out most message) message)) }
{
    let base = left_out(most, &message);
    if base == 0 {
        return Ok((0, message));
    }
    let short = without_first(alloc, message, base)?;
    Ok((base, short))
}
