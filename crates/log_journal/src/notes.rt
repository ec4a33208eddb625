//! Puts notes into a batch: each as the string of its fields.
ghost use Rattle.std.specs.Prelude.{◌≡◌, ◌<◌, ◌^◌, ◌∷◌, [], OnOk, OnErr, IfOk, IfErr, IsErrOf, map};
ghost use Rattle.ldap_op.specs.Grammar.{IsOp};
ghost use Rattle.log_journal.specs.Fields.{AreInRange};
ghost use Rattle.log_journal.specs.Notes.{Begin, Start, Step, Commit, Puts, plain, flag, IsEntryIn};
ghost use Rattle.log_journal.specs.private.Notes.{PutsFields};
ghost use Rattle.log_journal.specs.Refused.{HasNoRoom, IsOfNoting, IsOfPutting};
ghost use Rattle.log_journal.specs.private.Refused.{HasNoRoomFor};
ghost use Rattle.log_journal.specs.Views.{fields_view};
ghost use Rattle.vr_state.specs.Journaled.{Enter, Record, Stage, Adopt};

use crate::batch::Batch;
use crate::error::NoteError;
use crate::fields::{Fields, write_fields};
use crate::laws::fields_are_read;
use crate::spelling::spell;
use ldap_op::Op;
use std::alloc::Global;
use vr_state::words::LogEntry;

/// The version of journals that is written and read.
pub const VERSION: u64 = 1;

// prover: a number fits its word
fn see_number(number: u64)
    ensures { number < 2 ^ 64 }
{
    let _ = number;
}

// prover: a kind fits an octet
fn see_kind(kind: u8)
    ensures { kind < 2 ^ 8 }
{
    let _ = kind;
}

// prover: fields fit their octets
pub fn see_fields(fields: &Fields<'_>)
    ensures { AreInRange (fields_view fields.now) }
{
    see_kind(fields.kind);
    see_number(fields.first);
    see_number(fields.second);
    see_number(fields.third);
    see_number(fields.fourth);
    see_number(fields.fifth);
}

/// Puts the string of these fields. At an error nothing has changed.
fn put_fields(alloc: Global, batch: &mut Batch, fields: &Fields<'_>) -> Result<(), NoteError>
    ensures ok { OnOk result (PutsFields (fields_view fields.now) batch.old batch.new) }
    ensures err { OnErr result (batch.new ≡ batch.old) }
    ensures errors { IfErr result (λ e. IsOfPutting e) }
    ensures full { IsErrOf result NoteError.Full → HasNoRoomFor (fields_view fields.now) batch.old }
    ensures noting { IfErr result (λ e. IsOfNoting e) }
{
    see_fields(fields);
    fields_are_read();
    let string = write_fields(alloc, fields)?;
    batch.push(&string)?;
    Ok(())
}

/// Five numbers, and nothing behind them.
pub fn plain(kind: u8, first: u64, second: u64, third: u64, fourth: u64) -> Fields<'static>
    ensures { fields_view result ≡ plain kind first second third fourth 0 }
{
    Fields {
        kind,
        first,
        second,
        third,
        fourth,
        fifth: 0,
        rest: &[],
    }
}

/// 1 for yes, 0 for no.
fn flag_of(is: bool) -> u64
    ensures { result ≡ flag is }
{
    if is { 1 } else { 0 }
}

/// Notes whose the journal is. E29 where the batch has no room for it, else want of memory is the only error. At an
/// error nothing has changed.
pub fn put_begin(
    alloc: Global,
    batch: &mut Batch,
    cluster: u64,
    index: u64,
    count: u64,
) -> Result<(), NoteError>
    ensures ok { OnOk result (Puts (Begin cluster index count ∷ []) batch.old batch.new) }
    ensures err { OnErr result (batch.new ≡ batch.old) }
    ensures errors { IfErr result (λ e. IsOfPutting e) }
    ensures full { IsErrOf result NoteError.Full → HasNoRoom (Begin cluster index count) batch.old }
{
    put_fields(alloc, batch, &plain(0, VERSION, cluster, index, count))?;
    Ok(())
}

/// Notes a start of the replica, and whether it goes on from what is kept. E29 where the batch has no room for it,
/// else want of memory is the only error. At an error nothing has changed.
pub fn put_start(
    alloc: Global,
    batch: &mut Batch,
    restarts: u64,
    view_number: u64,
    is_whole: bool,
) -> Result<(), NoteError>
    ensures ok { OnOk result (Puts (Start restarts view_number is_whole ∷ []) batch.old batch.new) }
    ensures err { OnErr result (batch.new ≡ batch.old) }
    ensures errors { IfErr result (λ e. IsOfPutting e) }
    ensures full { IsErrOf result NoteError.Full → HasNoRoom (Start restarts view_number is_whole) batch.old }
{
    put_fields(
        alloc,
        batch,
        &plain(1, restarts, view_number, flag_of(is_whole), 0),
    )?;
    Ok(())
}

/// Notes that a view was entered. At an error nothing has changed.
pub fn put_enter(alloc: Global, batch: &mut Batch, view_number: u64) -> Result<(), NoteError>
    ensures ok { OnOk result (Puts (Step (Enter view_number) ∷ []) batch.old batch.new) }
    ensures err { OnErr result (batch.new ≡ batch.old) }
    ensures noting { IfErr result (λ e. IsOfNoting e) }
{
    put_fields(alloc, batch, &plain(2, view_number, 0, 0, 0))?;
    Ok(())
}

/// Notes that a log was adopted: the first `base` records stay, and those that wait come behind them. At an error
/// nothing has changed.
pub fn put_adopt(
    alloc: Global,
    batch: &mut Batch,
    view_number: u64,
    last_normal_view: u64,
    base: u64,
    commit_number: u64,
) -> Result<(), NoteError>
    ensures ok { OnOk result (Puts (Step (Adopt view_number last_normal_view base commit_number) ∷ []) batch.old
        batch.new) }
    ensures err { OnErr result (batch.new ≡ batch.old) }
    ensures noting { IfErr result (λ e. IsOfNoting e) }
{
    put_fields(
        alloc,
        batch,
        &plain(5, view_number, last_normal_view, base, commit_number),
    )?;
    Ok(())
}

/// Notes how much is known to be committed. E29 where the batch has no room for it, else want of memory is the only
/// error. At an error nothing has changed.
pub fn put_commit(alloc: Global, batch: &mut Batch, commit_number: u64) -> Result<(), NoteError>
    ensures ok { OnOk result (Puts (Commit commit_number ∷ []) batch.old batch.new) }
    ensures err { OnErr result (batch.new ≡ batch.old) }
    ensures errors { IfErr result (λ e. IsOfPutting e) }
    ensures full { IsErrOf result NoteError.Full → HasNoRoom (Commit commit_number) batch.old }
{
    put_fields(alloc, batch, &plain(6, commit_number, 0, 0, 0))?;
    Ok(())
}

/// The fields of a record whose update has these octets.
pub fn entry_fields<'a>(kind: u8, first: u64, entry: &LogEntry<Op>, octets: &'a [u8]) -> Fields<'a>
    requires { IsOp entry.now.payload octets.now }
    ensures entry { IsEntryIn kind first entry.now (fields_view result) }
    ensures rest { result.rest.now ≡ octets.now }
{
    Fields {
        kind,
        first,
        second: entry.client.home as u64,
        third: entry.client.life,
        fourth: entry.client.number,
        fifth: entry.request_number,
        rest: octets,
    }
}

/// Notes a record that was appended. At an error nothing has changed.
pub fn put_record(
    alloc: Global,
    batch: &mut Batch,
    commit_number: u64,
    entry: &LogEntry<Op>,
) -> Result<(), NoteError>
    ensures ok { OnOk result (Puts (Step (Record commit_number entry.now) ∷ []) batch.old batch.new) }
    ensures err { OnErr result (batch.new ≡ batch.old) }
    ensures noting { IfErr result (λ e. IsOfNoting e) }
{
    let octets = spell(&entry.payload)?;
    put_fields(alloc, batch, &entry_fields(3, commit_number, entry, octets))?;
    Ok(())
}

/// Notes a record that waits to be adopted. At an error nothing has changed.
pub fn put_stage(alloc: Global, batch: &mut Batch, entry: &LogEntry<Op>) -> Result<(), NoteError>
    ensures ok { OnOk result (Puts (Step (Stage entry.now) ∷ []) batch.old batch.new) }
    ensures err { OnErr result (batch.new ≡ batch.old) }
    ensures noting { IfErr result (λ e. IsOfNoting e) }
{
    let octets = spell(&entry.payload)?;
    put_fields(alloc, batch, &entry_fields(4, 0, entry, octets))?;
    Ok(())
}
