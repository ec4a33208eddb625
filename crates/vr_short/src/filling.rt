//! A message with the receiver's own first records in the place of those that were left out.
ghost use Rattle.std.specs.Prelude.{◌≡◌, ◌≤◌, ◌++◌, length, take, IfOk};
ghost use Rattle.vr_short.specs.Short.{has_first, taken_as};

use std::alloc::{AllocError, Global};
use vr_state::log::Log;
use vr_state::message::PeerMessage;
use vr_state::payload::Payload;
use vr_state::words::LogEntry;

/// Whether a log of which so much is committed has the first `base` records for good.
fn has_first<P: Payload>(base: u64, committed: u64, own: &[LogEntry<P>]) -> bool
    ensures { result ≡ has_first base committed own.now }
{
    base <= committed && base <= own.len() as u64
}

/// A log of these records: pointers to their payloads are copied.
fn log_of<P: Payload>(alloc: Global, records: &[LogEntry<P>]) -> Result<Log<P>, AllocError>
    ensures { IfOk result (λ log. log ≡ records.now) }
{
    let mut entries = Vec::new(alloc);
    entries.reserve(records.len())?;
    for entry in records {
        entries.push(entry.copy(alloc)?)?;
    }
    Ok(Log::from_vec(entries))
}

/// The first `base` of these records, and this log behind them.
fn joined<P: Payload>(
    alloc: Global,
    own: &[LogEntry<P>],
    base: u64,
    tail: Log<P>,
) -> Result<Log<P>, AllocError>
    requires { base ≤ length own.now }
    ensures { IfOk result (λ log. log ≡ take base own.now ++ tail) }
{
    let base = base as usize;
    let mut log = log_of(alloc, &own[..base])?;
    log.replace_after(base, tail)?;
    Ok(log)
}

/// What a replica with this log, of which it has committed so much, makes of a message that leaves out the first `base`
/// records of its log: the whole message, or nothing where it lacks some of these. Its only error is want of memory.
pub fn fill<P: Payload>(
    alloc: Global,
    own: &[LogEntry<P>],
    committed: u64,
    base: u64,
    mut message: PeerMessage<P>,
) -> Result<Option<PeerMessage<P>>, AllocError>
    ensures { IfOk result (λ taken. taken ≡ taken_as base committed own.now message) }
{
    let Some(tail) = message.replace_log(Log::new(alloc)) else {
        return Ok(Some(message));
    };
    if !has_first(base, committed, own) {
        return Ok(None);
    }
    let log = joined(alloc, own, base, tail)?;
    message.replace_log(log);
    Ok(Some(message))
}
