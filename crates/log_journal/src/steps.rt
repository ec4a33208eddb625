//! Puts what a step of a replica notes into a batch. How much of two logs is alike is found out elsewhere.
ghost use Rattle.std.specs.Prelude.{◌≡◌, ◌≤◌, ◌∷◌, [], length, map, OnOk, IfErr};
ghost use Rattle.log_journal.specs.Notes.{Step, Puts};
ghost use Rattle.log_journal.specs.Refused.{IsOfNoting};
ghost use Rattle.log_journal.specs.Steps.{adopted, before_of, entered, grown, notes_since, only_grew};
ghost use Rattle.vr_state.specs.Journaled.{Record, Stage, Enter};
ghost use Rattle.vr_state.specs.State.{is_normal};
ghost use Rattle.vr_state.specs.StepLaw.{brings_tail};
ghost use Rattle.vr_state.specs.Views.{state};

use crate::batch::Batch;
use crate::error::NoteError;
use crate::notes::{put_adopt, put_enter, put_record, put_stage};
use ldap_op::Op;
use std::alloc::Global;
use vr_state::event::Event;
use vr_state::message::PeerMessage;
use vr_state::replica::Replica;
use vr_state::words::{LogEntry, Status};

/// What is to be known of a replica before a step, and of its event, to note the step.
#[derive(Clone, Copy)]
pub struct Before {
    pub is_normal: bool,
    pub view_number: u64,
    /// How many records its log has.
    pub length: u64,
    /// Whether the event is a NEWSTATE.
    pub brings_tail: bool,
}

/// Whether an event is a NEWSTATE.
fn brings_tail(event: &Event<Op>) -> bool
    ensures { result ≡ brings_tail event.now }
{
    match event {
        Event::Message { message, .. } => match message {
            PeerMessage::NewState { .. } => true,
            _ => false,
        },
        _ => false,
    }
}

/// Whether a replica's status is normal.
pub fn is_normal(status: Status) -> bool
    ensures { result ≡ is_normal status }
{
    match status {
        Status::Normal => true,
        Status::ViewChange => false,
        Status::Recovering => false,
    }
}

impl Before {
    /// Of a replica that is to take an event.
    pub fn of(replica: &Replica<Op>, event: &Event<Op>) -> Before
        ensures { result ≡ before_of (state replica.now) event.now }
    {
        Before {
            is_normal: is_normal(replica.status),
            view_number: replica.view_number,
            length: replica.log.len() as u64,
            brings_tail: brings_tail(event),
        }
    }
}

/// Notes records that were appended.
fn put_records(
    alloc: Global,
    batch: &mut Batch,
    commit_number: u64,
    entries: &[LogEntry<Op>],
) -> Result<(), NoteError>
    ensures ok { OnOk result (Puts (map (λ e. Step (Record commit_number e)) entries.now) batch.old batch.new) }
    ensures errors { IfErr result (λ e. IsOfNoting e) }
{
    for entry in entries {
        put_record(alloc, batch, commit_number, entry)?;
    }
    Ok(())
}

/// Notes records that wait to be adopted.
fn put_stages(alloc: Global, batch: &mut Batch, entries: &[LogEntry<Op>]) -> Result<(), NoteError>
    ensures ok { OnOk result (Puts (map (λ e. Step (Stage e)) entries.now) batch.old batch.new) }
    ensures errors { IfErr result (λ e. IsOfNoting e) }
{
    for entry in entries {
        put_stage(alloc, batch, entry)?;
    }
    Ok(())
}

/// Notes an adopted log: all records behind the first `base`, and then that they are adopted.
fn put_adopted(
    alloc: Global,
    batch: &mut Batch,
    base: usize,
    replica: &Replica<Op>,
) -> Result<(), NoteError>
    requires { base ≤ length replica.now.log }
    ensures ok { OnOk result (Puts (map (λ x. Step x) (adopted base (state replica.now))) batch.old batch.new) }
    ensures errors { IfErr result (λ e. IsOfNoting e) }
{
    let (_, behind) = replica.log.as_slice().split_at(base);
    put_stages(alloc, batch, behind)?;
    put_adopt(
        alloc,
        batch,
        replica.view_number,
        replica.last_normal_view,
        base as u64,
        replica.commit_number,
    )?;
    Ok(())
}

/// Notes records behind the first `length`.
fn put_grown(
    alloc: Global,
    batch: &mut Batch,
    length: u64,
    replica: &Replica<Op>,
) -> Result<(), NoteError>
    ensures ok { OnOk result (Puts (map (λ x. Step x) (grown length (state replica.now))) batch.old batch.new) }
    ensures errors { IfErr result (λ e. IsOfNoting e) }
{
    let from = (length as usize).min(replica.log.len());
    let (_, behind) = replica.log.as_slice().split_at(from);
    put_records(alloc, batch, replica.commit_number, behind)?;
    Ok(())
}

/// Notes the view of a replica that isn't normal, if it has grown.
fn put_entered(
    alloc: Global,
    batch: &mut Batch,
    before: u64,
    view_number: u64,
) -> Result<(), NoteError>
    ensures ok { OnOk result (Puts (map (λ x. Step x) (entered before view_number)) batch.old batch.new) }
    ensures errors { IfErr result (λ e. IsOfNoting e) }
{
    if before < view_number {
        put_enter(alloc, batch, view_number)?;
    }
    Ok(())
}

/// Whether a replica's log can only have grown.
fn only_grew(before: Before, replica: &Replica<Op>) -> bool
    ensures { result ≡ only_grew before (state replica.now) }
{
    before.is_normal && (before.view_number == replica.view_number && !before.brings_tail)
}

/// Notes a step, after which a replica is as it is here, and has its first `base` records as they were. At an error
/// some of its notes may be there.
pub fn put_step(
    alloc: Global,
    batch: &mut Batch,
    before: Before,
    base: usize,
    replica: &Replica<Op>,
) -> Result<(), NoteError>
    requires { base ≤ length replica.now.log }
    ensures ok { OnOk result (Puts (map (λ x. Step x) (notes_since before base (state replica.now))) batch.old
        batch.new) }
    ensures errors { IfErr result (λ e. IsOfNoting e) }
{
    if !is_normal(replica.status) {
        put_entered(alloc, batch, before.view_number, replica.view_number)?;
        return Ok(());
    }
    if only_grew(before, replica) {
        put_grown(alloc, batch, before.length, replica)?;
        return Ok(());
    }
    put_adopted(alloc, batch, base, replica)?;
    Ok(())
}
