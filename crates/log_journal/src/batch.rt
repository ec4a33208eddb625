//! A batch of strings as the frames that a journal takes, built up string by string.
ghost use Rattle.std.specs.Prelude.{◌≡◌, ◌⊎◌, ◌<◌, ◌+◌, ◌^◌, ◌++◌, ◌∷◌, [], length, vec_len, vec_capacity, IsTrue, OnOk, OnErr, IfErr, IsErrOf};
ghost use Rattle.journal.specs.Frames.{frames, recorded};
ghost use Rattle.log_journal.specs.Framed.{AreTooLong};
ghost use Rattle.log_journal.specs.Refused.{IsOfPutting};
ghost use Rattle.log_journal.specs.private.Framed.{IsFramed};

use crate::error::NoteError;
use journal::{FRAME_HEADER, frames_are_read, put_string};
use std::alloc::Global;
use std::marker::Model;

/// The octets of a batch are fewer.
const MOST: usize = 0x8_0000_0000;

/// Strings that wait to be settled, as the octets of their frames.
#[derive(Drop)]
pub struct Batch {
    pub(crate) octets: Vec<u8>,
}

/// Adds the frame of a string to others. E29 where the frames would be too long, else want of memory is the only error,
/// and there is none where there is room. At an error nothing has changed.
pub fn push_frame(octets: &mut Vec<u8>, string: &[u8]) -> Result<(), NoteError>
    requires framed { IsFramed octets.old.items }
    ensures framed { IsFramed octets.new.items }
    ensures ok { OnOk result (recorded octets.new.items ≡ recorded octets.old.items ++ string.now ∷ []) }
    ensures err { OnErr result (octets.new.items ≡ octets.old.items) }
    ensures errors { IfErr result (λ e. (e ≡ NoteError.Full) ⊎ (e ≡ NoteError.NoMemory)) }
    ensures full { IsErrOf result NoteError.Full → AreTooLong (recorded octets.old.items ++ string.now ∷ []) }
    ensures too_long { AreTooLong (recorded octets.old.items ++ string.now ∷ []) → IsErrOf result NoteError.Full }
    ensures no_memory { IsErrOf result NoteError.NoMemory → vec_capacity octets.old < vec_len octets.old +
        (10 + length string.now) }
{
    frames_are_read();
    if string.len() + FRAME_HEADER >= MOST - octets.as_slice().len() {
        return Err(NoteError::Full);
    }
    put_string(octets, string)?;
    Ok(())
}

/// Adds frames to others. At an error nothing has changed.
fn join_frames(octets: &mut Vec<u8>, more: &[u8]) -> Result<(), NoteError>
    requires framed { IsFramed octets.old.items }
    requires more { IsFramed more.now }
    ensures framed { IsFramed octets.new.items }
    ensures ok { OnOk result (recorded octets.new.items ≡ recorded octets.old.items ++ recorded more.now) }
    ensures err { OnErr result (octets.new.items ≡ octets.old.items) }
    ensures errors { IfErr result (λ e. IsOfPutting e) }
{
    frames_are_read();
    if more.len() >= MOST - octets.as_slice().len() {
        return Err(NoteError::Full);
    }
    octets.extend_from_slice(more)?;
    Ok(())
}

impl Model for Batch {
    ghost use Rattle.std.specs.Prelude.{ℕ, List};
    ghost use Rattle.journal.specs.Frames.{recorded};
    ghost use Rattle.log_journal.specs.private.Framed.{IsFramed};

    ghost Value = { List (List ℕ) };

    ghost view = { λ b. recorded b.octets.items };

    ghost invariant = { λ b. IsFramed b.octets.items };
}

impl Batch {
    /// No strings. It takes no memory.
    pub fn new(alloc: Global) -> Batch
        ensures { result ≡ [] }
    {
        Batch {
            octets: Vec::new(alloc),
        }
    }

    /// Adds a string. E29 where the frames would be too long, else want of memory is the only error. At an error
    /// nothing has changed.
    pub fn push(&mut self, string: &[u8]) -> Result<(), NoteError>
        ensures ok { OnOk result (self.new ≡ self.old ++ string.now ∷ []) }
        ensures err { OnErr result (self.new ≡ self.old) }
        ensures errors { IfErr result (λ e. (e ≡ NoteError.Full) ⊎ (e ≡ NoteError.NoMemory)) }
        ensures full { IsErrOf result NoteError.Full → AreTooLong (self.old ++ string.now ∷ []) }
        ensures too_long { AreTooLong (self.old ++ string.now ∷ []) → IsErrOf result NoteError.Full }
    {
        push_frame(&mut self.octets, string)
    }

    /// Adds all strings of another batch. E29 where the frames would be too long, else want of memory is the only
    /// error. At an error nothing has changed.
    pub fn join(&mut self, other: Batch) -> Result<(), NoteError>
        ensures ok { OnOk result (self.new ≡ self.old ++ other) }
        ensures err { OnErr result (self.new ≡ self.old) }
        ensures errors { IfErr result (λ e. IsOfPutting e) }
    {
        let Batch { octets } = other;
        if self.octets.is_empty() {
            self.octets = octets;
            return Ok(());
        }
        join_frames(&mut self.octets, octets.as_slice())
    }

    /// The frames of the strings, as a journal takes them.
    pub fn octets(&self) -> &[u8]
        ensures strings { recorded result.now ≡ self.now }
        ensures framed { result.now ≡ frames self.now }
        ensures short { length result.now < 2 ^ 35 }
    {
        self.octets.as_slice()
    }

    /// Whether there are none.
    pub fn is_empty(&self) -> bool
        ensures none { IsTrue result → self.now ≡ [] }
        ensures some { self.now ≡ [] → IsTrue result }
    {
        self.octets.is_empty()
    }
}
