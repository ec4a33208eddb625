//! Says which answers are long, and lets one long answer go out at a time.
ghost use Rattle.std.specs.Prelude.{◌≡◌, ◌≤◌, ◌<◌, length, IsTrue, IsFalse};
ghost use Rattle.std.specs.List.{AllByRecursion};
ghost use Rattle.std.specs.Option.{option_map};
ghost use Rattle.ldap_op.specs.Written.{op_bytes};
ghost use Rattle.peer_messages.specs.private.Answers.{HasSpelling, MayBegin, answer_in, ended, octets_in};

use peer_link::{Op, PeerMessage};
use vr_state::message::Response;
use vr_state::words::LogEntry;

/// The records of the log that the answer to a recovery may hold.
fn log_held(response: &Response<Op>) -> Option<&[LogEntry<Op>]>
    ensures { option_map (λ records. records.now) result ≡ option_map (λ held. held.log) response.now.held }
{
    match &response.held {
        Some(held) => Some(held.log.as_slice()),
        None => None,
    }
}

/// The records that an answer tells: one that a replica has asked for, and asks for again where it doesn't come.
pub fn answer_in(message: &PeerMessage<Op>) -> Option<&[LogEntry<Op>]>
    ensures { option_map (λ records. records.now) result ≡ answer_in message.now }
{
    match message {
        PeerMessage::NewState { tail, .. } => Some(tail.log.as_slice()),
        PeerMessage::RecoveryResponse { response, .. } => log_held(response),
        _ => None,
    }
}

/// How many octets the update of a record has; none are counted where it has no spelling.
fn count_octets(entry: &LogEntry<Op>) -> usize
    ensures most { result ≤ length (op_bytes entry.now.payload) }
    ensures all { HasSpelling entry.now → result ≡ length (op_bytes entry.now.payload) }
{
    match entry.payload.octets() {
        Some(octets) => octets.len(),
        None => 0,
    }
}

/// Whether records have so many octets together. No more of them are looked at than have as many.
pub fn are_long(records: &[LogEntry<Op>], octets: usize) -> bool
    ensures long { IsTrue result → octets ≤ octets_in records.now }
    ensures short { IsFalse result → AllByRecursion HasSpelling records.now → octets_in records.now < octets }
{
    let mut left = octets;
    let mut rest = records;
    while let Some((entry, behind)) = rest.split_first() {
        if left == 0 {
            return true;
        }
        left = left.saturating_sub(count_octets(entry));
        rest = behind;
    }
    left == 0
}

/// To which replica a long answer is being sent, if to any.
#[derive(Clone, Copy)]
pub struct AnswerSlot {
    pub to: Option<usize>,
}

impl AnswerSlot {
    /// To none.
    pub fn new() -> AnswerSlot
        ensures { result.to ≡ None }
    {
        AnswerSlot { to: None }
    }

    /// Whether a long answer may be sent to a replica: none is being sent to another. If so, one is.
    pub fn begin(&mut self, to: usize) -> bool
        ensures free { IsTrue result → MayBegin self.old.to to × (self.new.to ≡ Some to) }
        ensures taken { IsFalse result → (MayBegin self.old.to to → ⊥) × (self.new.to ≡ self.old.to) }
    {
        let is_free = match self.to {
            None => true,
            Some(other) => other == to,
        };
        if is_free {
            self.to = Some(to);
        }
        is_free
    }

    /// No long answer is being sent to a replica any more.
    pub fn end(&mut self, to: usize)
        ensures { self.new.to ≡ ended self.old.to to }
    {
        if self.to == Some(to) {
            self.to = None;
        }
    }
}
