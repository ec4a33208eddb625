//! Opens a journal: each string is taken as it is read, so that no more of the journal is in memory than a window of
//! it. What stands behind them is cleared by a call of its own, once nothing else refuses the start.
ghost use Rattle.std.specs.Prelude.{◌≡◌, ◌≢◌, ◌≤◌, [], drop, false, IfOk, IfErr, OnOk, IsErrOf};
ghost use Rattle.journal.specs.Device.{HasRisen, LeavesOnly, Only};
ghost use Rattle.journal.specs.Frames.{is_whole, recorded};
ghost use Rattle.journal.specs.Reading.{HasRead};
ghost use Rattle.log_journal.specs.Found.{HasAnotherVersion, IsFound};
ghost use Rattle.log_journal.specs.private.Found.{TellsNext};
ghost use Rattle.log_journal.specs.Kept.{IsHeld};
ghost use Rattle.log_journal.specs.Refused.{HasDamage, IsOfClearing, IsOfOpening};
ghost use Rattle.log_journal.specs.Told.{Tells, nothing_told};
ghost use Rattle.log_journal.specs.Views.{told_view};

use crate::error::NoteError;
use crate::telling::take_string;
use crate::told::{Told, nothing_told};
use journal::{Device, Journal, JournalError, StringReader};
use std::alloc::Global;

/// Why a journal isn't opened.
fn note_of_reading(error: JournalError) -> NoteError
    ensures device { result ≡ NoteError.DeviceFailed → error ≡ JournalError.DeviceFailed }
    ensures version { result ≡ NoteError.AnotherVersion → ⊥ }
    ensures damaged { result ≡ NoteError.Damaged → ⊥ }
    ensures memory { result ≡ NoteError.NoMemory → error ≡ JournalError.NoMemory }
    ensures errors { IsOfOpening result }
    ensures clearing { IsOfClearing result }
{
    match error {
        JournalError::NoMemory => NoteError::NoMemory,
        JournalError::DeviceFailed => NoteError::DeviceFailed,
    }
}

/// Reads the next string and takes it; whether there was one. After an error neither what is told nor the reader is of
/// use.
fn tell_next<J: Device>(
    alloc: Global,
    told: &mut Told,
    reader: &mut StringReader,
    device: &mut J,
) -> Result<bool, NoteError>
    requires read { HasRead reader.old (J.seen device.old) }
    requires durable { Only (J.seen device.old) (J.may_leave device.old) }
    ensures told { IfOk result (λ more. TellsNext more reader.old reader.new (told_view told.old) (told_view told.new)
        (J.seen device.old)) }
    ensures read { OnOk result (HasRead reader.new (J.seen device.new)) }
    ensures seen { J.seen device.new ≡ J.seen device.old }
    ensures durable { Only (J.seen device.new) (J.may_leave device.new) }
    ensures any_moment { LeavesOnly J.moment J.left_since device.old device.new (λ c. recorded c ≡
        recorded (J.seen device.old)) }
    ensures later { J.failure_count device.old ≤ J.failure_count device.new }
    ensures device_failed { IsErrOf result NoteError.DeviceFailed → HasRisen (J.failure_count device.old)
        (J.failure_count device.new) }
    ensures version { IsErrOf result NoteError.AnotherVersion →
        HasAnotherVersion (recorded (drop reader.old.end (J.seen device.old))) }
    ensures damaged { IsErrOf result NoteError.Damaged →
        HasDamage (recorded (drop reader.old.end (J.seen device.old))) }
    ensures errors { IfErr result (λ e. IsOfOpening e) }
{
    let more = match reader.advance(device) {
        Ok(more) => more,
        Err(error) => return Err(note_of_reading(error)),
    };
    if more {
        match take_string(alloc, told, reader.string()) {
            Ok(()) => Ok(true),
            Err(error) => Err(error),
        }
    } else {
        Ok(false)
    }
}

/// What the strings of a device tell, the oldest first; the reader stands behind them then. After an error neither is
/// of use.
fn tell_all<J: Device>(
    alloc: Global,
    reader: &mut StringReader,
    device: &mut J,
) -> Result<Told, NoteError>
    requires front { reader.old.end ≡ 0 }
    requires read { HasRead reader.old (J.seen device.old) }
    requires durable { Only (J.seen device.old) (J.may_leave device.old) }
    ensures told { IfOk result (λ told. Tells nothing_told (recorded (J.seen device.old)) (told_view told)) }
    ensures read { OnOk result (HasRead reader.new (J.seen device.new)) }
    ensures none { OnOk result (is_whole (drop reader.new.end (J.seen device.new)) ≡ false) }
    ensures empty { OnOk result (reader.new.end ≡ 0 → recorded (J.seen device.old) ≡ []) }
    ensures not_empty { OnOk result (reader.new.end ≢ 0 → recorded (J.seen device.old) ≢ []) }
    ensures seen { J.seen device.new ≡ J.seen device.old }
    ensures durable { Only (J.seen device.new) (J.may_leave device.new) }
    ensures any_moment { LeavesOnly J.moment J.left_since device.old device.new (λ c. recorded c ≡
        recorded (J.seen device.old)) }
    ensures later { J.failure_count device.old ≤ J.failure_count device.new }
    ensures device_failed { IsErrOf result NoteError.DeviceFailed → HasRisen (J.failure_count device.old)
        (J.failure_count device.new) }
    ensures version { IsErrOf result NoteError.AnotherVersion → HasAnotherVersion (recorded (J.seen device.old)) }
    ensures damaged { IsErrOf result NoteError.Damaged → HasDamage (recorded (J.seen device.old)) }
    ensures errors { IfErr result (λ e. IsOfOpening e) }
{
    let mut told = nothing_told(alloc);
    'strings: loop {
        match tell_next(alloc, &mut told, reader, device) {
            Ok(more) => {
                if !more {
                    return Ok(told);
                }
            }
            Err(error) => return Err(error),
        }
    }
}

/// Reads a journal: what its strings tell; nothing, where it has none; and a reader behind them. Nothing is written.
/// Want of memory and E21 come as growths and calls of the device fail; E28 where a string is no note, E27 where a note
/// of another version says whose the journal is.
pub fn read<J: Device>(
    alloc: Global,
    journal: &mut Journal<J>,
) -> Result<(Option<Told>, StringReader), NoteError>
    // After a restart, what is read is what is on the disk.
    requires { Only (J.seen journal.old.device) (J.may_leave journal.old.device) }
    ensures told { IfOk result (λ found. IsFound found.0 (recorded (J.seen journal.old.device))) }
    ensures read { IfOk result (λ found. HasRead found.1 (J.seen journal.new.device)) }
    ensures none { IfOk result (λ found. is_whole (drop found.1.end (J.seen journal.new.device)) ≡ false) }
    ensures seen { J.seen journal.new.device ≡ J.seen journal.old.device }
    ensures durable { Only (J.seen journal.new.device) (J.may_leave journal.new.device) }
    ensures any_moment { LeavesOnly J.moment J.left_since journal.old.device journal.new.device
        (λ c. recorded c ≡ recorded (J.seen journal.old.device)) }
    ensures later { J.failure_count journal.old.device ≤ J.failure_count journal.new.device }
    ensures device_failed { IsErrOf result NoteError.DeviceFailed
        → HasRisen (J.failure_count journal.old.device) (J.failure_count journal.new.device) }
    ensures version { IsErrOf result NoteError.AnotherVersion →
        HasAnotherVersion (recorded (J.seen journal.old.device)) }
    ensures damaged { IsErrOf result NoteError.Damaged → HasDamage (recorded (J.seen journal.old.device)) }
    ensures errors { IfErr result (λ e. IsOfOpening e) }
{
    let mut reader = StringReader::new(alloc, &mut journal.device)?;
    let told = match tell_all(alloc, &mut reader, &mut journal.device) {
        Ok(told) => told,
        Err(error) => return Err(error),
    };
    if reader.end == 0 {
        Ok((None, reader))
    } else {
        Ok((Some(told), reader))
    }
}

/// Clears what stands behind the strings that were read; the journal may be written to then. A crash at any moment of
/// the call leaves the same strings. Out of memory, nothing is written; E21 comes where the device fails.
pub fn clear<J: Device>(
    alloc: Global,
    journal: &mut Journal<J>,
    reader: &StringReader,
) -> Result<(), NoteError>
    requires read { HasRead reader.now (J.seen journal.old.device) }
    requires none { is_whole (drop reader.now.end (J.seen journal.old.device)) ≡ false }
    requires durable { Only (J.seen journal.old.device) (J.may_leave journal.old.device) }
    ensures held { OnOk result (IsHeld J.seen J.may_leave journal.new) }
    ensures strings { OnOk result (recorded (J.seen journal.new.device) ≡ recorded (J.seen journal.old.device)) }
    ensures no_memory { IsErrOf result NoteError.NoMemory → J.seen journal.new.device ≡ J.seen journal.old.device }
    ensures any_moment { LeavesOnly J.moment J.left_since journal.old.device journal.new.device
        (λ c. recorded c ≡ recorded (J.seen journal.old.device)) }
    ensures later { J.failure_count journal.old.device ≤ J.failure_count journal.new.device }
    ensures device_failed { IsErrOf result NoteError.DeviceFailed
        → HasRisen (J.failure_count journal.old.device) (J.failure_count journal.new.device) }
    ensures errors { IfErr result (λ e. IsOfClearing e) }
{
    match journal.clear_behind(alloc, reader) {
        Ok(()) => Ok(()),
        Err(error) => Err(note_of_reading(error)),
    }
}
