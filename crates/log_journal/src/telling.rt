//! Reads what strings tell: notes are taken one by one, the oldest first.
ghost use Rattle.std.specs.Prelude.{◌≡◌, ◌≢◌, true, false, OnOk, IfOk, IfErr, IsErrOf, IsTrue};
ghost use Rattle.ldap_op.specs.Grammar.{IsOp};
ghost use Rattle.ldap_op.specs.Values.{OpValue};
ghost use Rattle.journal.specs.Journal.{octets_of};
ghost use Rattle.log_journal.specs.Found.{HasAnotherVersion, IsOfAnotherVersion};
ghost use Rattle.log_journal.specs.Notes.{IsEntryIn, Start, plain};
ghost use Rattle.log_journal.specs.Refused.{HasDamage, IsDamaged, IsOfTaking};
ghost use Rattle.log_journal.specs.private.Refused.{AreNoEntry, AreNoNote};
ghost use Rattle.log_journal.specs.Told.{Tells, nothing_told, told_by};
ghost use Rattle.log_journal.specs.private.Told.{Takes, TakesString};
ghost use Rattle.log_journal.specs.Views.{fields_view, told_view};

use crate::error::NoteError;
use crate::fields::{Fields, read_fields};
use crate::notes::VERSION;
use crate::told::{Told, nothing_told};
use ldap_op::{MsgFault, Op, read_op};
use std::alloc::Global;
use std::mem;
use vr_state::log::Log;
use vr_state::words::{Client, LogEntry};

/// The update that these octets spell.
fn update_of(alloc: Global, octets: &[u8]) -> Result<Op, NoteError>
    ensures update { IfOk result (λ op. IsOp op octets.now) }
    ensures version { IsErrOf result NoteError.AnotherVersion → ⊥ }
    ensures damaged { IsErrOf result NoteError.Damaged → (op : OpValue) → IsOp op octets.now → ⊥ }
    ensures errors { IfErr result (λ e. IsOfTaking e) }
{
    match read_op(alloc, octets) {
        Ok(op) => Ok(op),
        Err(MsgFault::NoMemory) => Err(NoteError::NoMemory),
        Err(_) => Err(NoteError::Damaged),
    }
}

/// The record of these fields.
fn entry_in(alloc: Global, fields: &Fields<'_>) -> Result<LogEntry<Op>, NoteError>
    ensures entry { IfOk result (λ e. IsEntryIn fields.now.kind fields.now.first e (fields_view fields.now)) }
    ensures version { IsErrOf result NoteError.AnotherVersion → ⊥ }
    ensures damaged { IsErrOf result NoteError.Damaged → AreNoEntry (fields_view fields.now) }
    ensures errors { IfErr result (λ e. IsOfTaking e) }
{
    if fields.second > 255 {
        return Err(NoteError::Damaged);
    }
    let payload = update_of(alloc, fields.rest)?;
    Ok(LogEntry {
        client: Client {
            home: fields.second as u8,
            life: fields.third,
            number: fields.fourth,
        },
        request_number: fields.fifth,
        payload,
    })
}

/// Whether fields are four numbers, and nothing behind them.
fn is_plain(fields: &Fields<'_>) -> bool
    ensures plain { IsTrue result → fields_view fields.now
        ≡ plain fields.now.kind fields.now.first fields.now.second fields.now.third fields.now.fourth 0 }
    ensures only { fields_view fields.now
        ≡ plain fields.now.kind fields.now.first fields.now.second fields.now.third fields.now.fourth 0 →
        IsTrue result }
{
    fields.fifth == 0 && fields.rest.is_empty()
}

/// Whether fields are one number, and nothing behind it.
fn is_number(fields: &Fields<'_>) -> bool
    ensures number { IsTrue result → fields_view fields.now ≡ plain fields.now.kind fields.now.first 0 0 0 0 }
    ensures only { fields_view fields.now ≡ plain fields.now.kind fields.now.first 0 0 0 0 → IsTrue result }
{
    fields.second == 0 && fields.third == 0 && fields.fourth == 0 && is_plain(fields)
}

/// Takes whose the journal is.
fn take_begin(told: &mut Told, fields: &Fields<'_>) -> Result<(), NoteError>
    requires { fields.now.kind ≡ 0 }
    ensures taken { OnOk result (Takes (fields_view fields.now) (told_view told.old) (told_view told.new)) }
    ensures version { IsErrOf result NoteError.AnotherVersion → fields.now.first ≢ 1 }
    ensures another { fields.now.first ≢ 1 → IsErrOf result NoteError.AnotherVersion }
    ensures damaged { IsErrOf result NoteError.Damaged → AreNoNote (fields_view fields.now) }
    ensures errors { IfErr result (λ e. IsOfTaking e) }
{
    if fields.first != VERSION {
        return Err(NoteError::AnotherVersion);
    }
    if !is_plain(fields) {
        return Err(NoteError::Damaged);
    }
    told.cluster = fields.second;
    told.index = fields.third;
    told.count = fields.fourth;
    Ok(())
}

/// Starts in a view, with what is kept.
fn start(alloc: Global, told: &mut Told, restarts: u64, view_number: u64)
    ensures { told_view told.new ≡ told_by (told_view told.old) (Start restarts view_number true) }
{
    told.restarts = restarts;
    told.view_number = view_number;
    told.staged = Log::new(alloc);
}

/// Starts in a view, with nothing, as a replica does that recovers.
fn start_empty(alloc: Global, told: &mut Told, restarts: u64, view_number: u64)
    ensures { told_view told.new ≡ told_by (told_view told.old) (Start restarts view_number false) }
{
    told.restarts = restarts;
    told.view_number = view_number;
    told.last_normal_view = 0;
    told.log = Log::new(alloc);
    told.commit_number = 0;
    told.staged = Log::new(alloc);
    told.is_whole = false;
}

/// Takes a start.
fn take_start(alloc: Global, told: &mut Told, fields: &Fields<'_>) -> Result<(), NoteError>
    requires { fields.now.kind ≡ 1 }
    ensures taken { OnOk result (Takes (fields_view fields.now) (told_view told.old) (told_view told.new)) }
    ensures version { IsErrOf result NoteError.AnotherVersion → ⊥ }
    ensures damaged { IsErrOf result NoteError.Damaged → AreNoNote (fields_view fields.now) }
    ensures errors { IfErr result (λ e. IsOfTaking e) }
{
    if !is_plain(fields) {
        return Err(NoteError::Damaged);
    }
    if fields.fourth != 0 {
        return Err(NoteError::Damaged);
    }
    match fields.third {
        0 => {
            start_empty(alloc, told, fields.first, fields.second);
            Ok(())
        }
        1 => {
            start(alloc, told, fields.first, fields.second);
            Ok(())
        }
        _ => Err(NoteError::Damaged),
    }
}

/// Takes a view that was entered.
fn take_enter(alloc: Global, told: &mut Told, fields: &Fields<'_>) -> Result<(), NoteError>
    requires { fields.now.kind ≡ 2 }
    ensures taken { OnOk result (Takes (fields_view fields.now) (told_view told.old) (told_view told.new)) }
    ensures version { IsErrOf result NoteError.AnotherVersion → ⊥ }
    ensures damaged { IsErrOf result NoteError.Damaged → AreNoNote (fields_view fields.now) }
    ensures errors { IfErr result (λ e. IsOfTaking e) }
{
    if !is_number(fields) {
        return Err(NoteError::Damaged);
    }
    told.view_number = fields.first;
    told.staged = Log::new(alloc);
    Ok(())
}

/// Takes a record that was appended.
fn take_record(alloc: Global, told: &mut Told, fields: &Fields<'_>) -> Result<(), NoteError>
    requires { fields.now.kind ≡ 3 }
    ensures taken { OnOk result (Takes (fields_view fields.now) (told_view told.old) (told_view told.new)) }
    ensures version { IsErrOf result NoteError.AnotherVersion → ⊥ }
    ensures damaged { IsErrOf result NoteError.Damaged → AreNoNote (fields_view fields.now) }
    ensures errors { IfErr result (λ e. IsOfTaking e) }
{
    let entry = entry_in(alloc, fields)?;
    told.log.push(entry)?;
    told.commit_number = told.commit_number.max(fields.first);
    told.staged = Log::new(alloc);
    Ok(())
}

/// Takes a record that waits to be adopted.
fn take_stage(alloc: Global, told: &mut Told, fields: &Fields<'_>) -> Result<(), NoteError>
    requires { fields.now.kind ≡ 4 }
    ensures taken { OnOk result (Takes (fields_view fields.now) (told_view told.old) (told_view told.new)) }
    ensures version { IsErrOf result NoteError.AnotherVersion → ⊥ }
    ensures damaged { IsErrOf result NoteError.Damaged → AreNoNote (fields_view fields.now) }
    ensures errors { IfErr result (λ e. IsOfTaking e) }
{
    if fields.first != 0 {
        return Err(NoteError::Damaged);
    }
    let entry = entry_in(alloc, fields)?;
    told.staged.push(entry)?;
    Ok(())
}

/// Takes an adopted log: the first records stay, and those that wait come behind them.
fn take_adopt(alloc: Global, told: &mut Told, fields: &Fields<'_>) -> Result<(), NoteError>
    requires { fields.now.kind ≡ 5 }
    ensures taken { OnOk result (Takes (fields_view fields.now) (told_view told.old) (told_view told.new)) }
    ensures version { IsErrOf result NoteError.AnotherVersion → ⊥ }
    ensures damaged { IsErrOf result NoteError.Damaged → AreNoNote (fields_view fields.now) }
    ensures errors { IfErr result (λ e. IsOfTaking e) }
{
    if !is_plain(fields) {
        return Err(NoteError::Damaged);
    }
    let staged = mem::replace(&mut told.staged, Log::new(alloc));
    told.log.replace_after(fields.third as usize, staged)?;
    told.view_number = fields.first;
    told.last_normal_view = fields.second;
    told.commit_number = told.commit_number.max(fields.fourth);
    told.is_whole = true;
    Ok(())
}

/// Takes how much is known to be committed.
fn take_commit(told: &mut Told, fields: &Fields<'_>) -> Result<(), NoteError>
    requires { fields.now.kind ≡ 6 }
    ensures taken { OnOk result (Takes (fields_view fields.now) (told_view told.old) (told_view told.new)) }
    ensures version { IsErrOf result NoteError.AnotherVersion → ⊥ }
    ensures damaged { IsErrOf result NoteError.Damaged → AreNoNote (fields_view fields.now) }
    ensures errors { IfErr result (λ e. IsOfTaking e) }
{
    if !is_number(fields) {
        return Err(NoteError::Damaged);
    }
    told.commit_number = told.commit_number.max(fields.first);
    Ok(())
}

/// Takes the note of these fields.
fn take_fields(alloc: Global, told: &mut Told, fields: &Fields<'_>) -> Result<(), NoteError>
    ensures taken { OnOk result (Takes (fields_view fields.now) (told_view told.old) (told_view told.new)) }
    ensures version { IsErrOf result NoteError.AnotherVersion → (fields.now.kind ≡ 0) × (fields.now.first ≢ 1) }
    ensures another { fields.now.kind ≡ 0 → fields.now.first ≢ 1 → IsErrOf result NoteError.AnotherVersion }
    ensures damaged { IsErrOf result NoteError.Damaged → AreNoNote (fields_view fields.now) }
    ensures errors { IfErr result (λ e. IsOfTaking e) }
{
    match fields.kind {
        0 => take_begin(told, fields),
        1 => take_start(alloc, told, fields),
        2 => take_enter(alloc, told, fields),
        3 => take_record(alloc, told, fields),
        4 => take_stage(alloc, told, fields),
        5 => take_adopt(alloc, told, fields),
        6 => take_commit(told, fields),
        _ => Err(NoteError::Damaged),
    }
}

/// Takes the note of a string. E27 where it is of another version, E28 where it is no note, else want of memory is the
/// only error; after an error what is told is of no use.
pub fn take_string(alloc: Global, told: &mut Told, string: &[u8]) -> Result<(), NoteError>
    ensures taken { OnOk result (TakesString string.now (told_view told.old) (told_view told.new)) }
    ensures version { IsErrOf result NoteError.AnotherVersion → IsOfAnotherVersion string.now }
    ensures another { IsOfAnotherVersion string.now → IsErrOf result NoteError.AnotherVersion }
    ensures damaged { IsErrOf result NoteError.Damaged → IsDamaged string.now }
    ensures errors { IfErr result (λ e. IsOfTaking e) }
{
    match read_fields(string) {
        Some(fields) => take_fields(alloc, told, &fields),
        None => Err(NoteError::Damaged),
    }
}

/// What these strings tell, the oldest first. E27 where one of them is of another version, E28 where one is no note,
/// else want of memory is the only error.
pub fn tell(alloc: Global, strings: &[Vec<u8>]) -> Result<Told, NoteError>
    ensures told { IfOk result (λ told. Tells nothing_told (octets_of strings.now) (told_view told)) }
    ensures version { IsErrOf result NoteError.AnotherVersion → HasAnotherVersion (octets_of strings.now) }
    ensures damaged { IsErrOf result NoteError.Damaged → HasDamage (octets_of strings.now) }
    ensures errors { IfErr result (λ e. IsOfTaking e) }
{
    let mut told = nothing_told(alloc);
    for string in strings {
        take_string(alloc, &mut told, string.as_slice())?;
    }
    Ok(told)
}
