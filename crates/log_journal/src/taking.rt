//! A replica takes a batch of events: each makes its step, and what it notes is put into the batch.
ghost use Rattle.std.specs.Prelude.{◌≡◌, ◌≤◌, ◌<◌, ◌^◌, true, map, length, IfOk, IfErr, IsErrOf, OnOk, OnErr};
ghost use Rattle.log_journal.specs.Notes.{Puts, Step};
ghost use Rattle.log_journal.specs.Refused.{IsOfNoting, IsOfNotingOne};
ghost use Rattle.log_journal.specs.Steps.{notes_since};
ghost use Rattle.log_journal.specs.Taken.{MakesSome, Takes, TakesAll};
ghost use Rattle.log_journal.specs.private.Light.{HasOctets, brings, is_light};
ghost use Rattle.vr_state.specs.Step.{step as step_of};
ghost use Rattle.vr_state.specs.Views.{state};

use crate::alike::count_alike;
use crate::batch::Batch;
use crate::copying::copy_replica;
use crate::error::NoteError;
use crate::fields::LEAST;
use crate::light::{light_room, put_light};
use crate::steps::{Before, put_step};
use journal::FRAME_HEADER;
use ldap_op::Op;
use std::alloc::{AllocError, Global};
use vr_recover::step;
use vr_state::event::Event;
use vr_state::message::Outputs;
use vr_state::replica::Replica;

/// A replica takes an event that can't have it adopt a log, and whose update has so many octets at most. The inner
/// error is want of memory: the event is left out then, and nothing has changed. After the outer one the replica has
/// made its step, and it isn't noted.
fn take_light(
    alloc: Global,
    replica: &mut Replica<Op>,
    batch: &mut Batch,
    event: Event<Op>,
    room: usize,
) -> Result<Result<Outputs<Op>, AllocError>, NoteError>
    requires light { is_light replica.old.count replica.old.index (state replica.old) event ≡ true }
    requires octets { HasOctets room (brings event) }
    requires small { room < 2 ^ 63 }
    ensures taken { IfOk result (λ taken. Takes replica.old.count replica.old.index (state replica.old) event taken
        (state replica.new) batch.old batch.new) }
    ensures index { replica.new.index ≡ replica.old.index }
    ensures count { replica.new.count ≡ replica.old.count }
    ensures stepped { OnErr result (state replica.new ≡ (step_of replica.old.count replica.old.index
        (state replica.old) event).state) }
    ensures errors { IfErr result (λ e. IsOfNotingOne e) }
{
    let before = Before::of(replica, &event);
    let mut string = match Vec::with_capacity(alloc, LEAST + room) {
        Ok(string) => string,
        Err(error) => return Ok(Err(error)),
    };
    match batch.octets.reserve(FRAME_HEADER + LEAST + room) {
        Ok(()) => {}
        Err(error) => return Ok(Err(error)),
    }
    let outputs = match step(alloc, replica, event) {
        Ok(outputs) => outputs,
        Err(error) => return Ok(Err(error)),
    };
    put_light(&mut batch.octets, &mut string, before, room, replica)?;
    Ok(Ok(outputs))
}

/// Notes a step in a batch of its own, and joins that to the others. At an error nothing has changed.
fn put_apart(
    alloc: Global,
    batch: &mut Batch,
    before: Before,
    base: usize,
    replica: &Replica<Op>,
) -> Result<(), NoteError>
    requires { base ≤ length replica.now.log }
    ensures ok { OnOk result (Puts (map (λ x. Step x) (notes_since before base (state replica.now))) batch.old
        batch.new) }
    ensures err { OnErr result (batch.new ≡ batch.old) }
    ensures errors { IfErr result (λ e. IsOfNoting e) }
{
    let mut own = Batch::new(alloc);
    put_step(alloc, &mut own, before, base, replica)?;
    batch.join(own)?;
    Ok(())
}

/// A replica takes an event that may have it adopt a log. Where its step can't be noted for want of memory, the replica
/// is put back as it was. The inner error is want of memory: the event is left out then, and nothing has changed. After
/// the outer one the replica has made its step, and it isn't noted.
fn take_heavy(
    alloc: Global,
    replica: &mut Replica<Op>,
    batch: &mut Batch,
    event: Event<Op>,
) -> Result<Result<Outputs<Op>, AllocError>, NoteError>
    ensures taken { IfOk result (λ taken. Takes replica.old.count replica.old.index (state replica.old) event taken
        (state replica.new) batch.old batch.new) }
    ensures index { replica.new.index ≡ replica.old.index }
    ensures count { replica.new.count ≡ replica.old.count }
    ensures stepped { OnErr result (state replica.new ≡ (step_of replica.old.count replica.old.index
        (state replica.old) event).state) }
    ensures errors { IfErr result (λ e. IsOfNotingOne e) }
{
    let before = Before::of(replica, &event);
    let former = match copy_replica(alloc, replica) {
        Ok(former) => former,
        Err(error) => return Ok(Err(error)),
    };
    let outputs = match step(alloc, replica, event) {
        Ok(outputs) => outputs,
        Err(error) => return Ok(Err(error)),
    };
    let base = count_alike(former.log.as_slice(), replica.log.as_slice());
    match put_apart(alloc, batch, before, base, replica) {
        Ok(()) => Ok(Ok(outputs)),
        Err(NoteError::NoMemory) => {
            *replica = former;
            Ok(Err(AllocError))
        }
        Err(error) => Err(error),
    }
}

/// A replica takes an event. The inner error is want of memory: the event is left out then, and nothing has changed.
/// The outer one isn't; after it the replica has made its step, and it isn't noted.
pub fn take_event(
    alloc: Global,
    replica: &mut Replica<Op>,
    batch: &mut Batch,
    event: Event<Op>,
) -> Result<Result<Outputs<Op>, AllocError>, NoteError>
    ensures taken { IfOk result (λ taken. Takes replica.old.count replica.old.index (state replica.old) event taken
        (state replica.new) batch.old batch.new) }
    ensures index { replica.new.index ≡ replica.old.index }
    ensures count { replica.new.count ≡ replica.old.count }
    ensures stepped { OnErr result (state replica.new ≡ (step_of replica.old.count replica.old.index
        (state replica.old) event).state) }
    ensures errors { IfErr result (λ e. IsOfNotingOne e) }
{
    match light_room(replica, &event) {
        Some(room) => take_light(alloc, replica, batch, event, room),
        None => take_heavy(alloc, replica, batch, event),
    }
}

/// A replica takes these events, one after another. Each gives its outputs, or is left out for want of memory; so is
/// the whole, and then nothing has changed. After another error the replica has made steps that aren't noted, and is of
/// no use.
pub fn take_events(
    alloc: Global,
    replica: &mut Replica<Op>,
    batch: &mut Batch,
    events: Vec<Event<Op>>,
) -> Result<Vec<Result<Outputs<Op>, AllocError>>, NoteError>
    ensures taken { IfOk result (λ taken. TakesAll replica.old.count replica.old.index (state replica.old)
        events.items taken.items (state replica.new) batch.old batch.new) }
    ensures index { replica.new.index ≡ replica.old.index }
    ensures count { replica.new.count ≡ replica.old.count }
    ensures stepped { OnErr result (MakesSome replica.old.count replica.old.index (state replica.old) events.items
        (state replica.new)) }
    ensures errors { IfErr result (λ e. IsOfNoting e) }
    ensures no_memory { IsErrOf result NoteError.NoMemory → (state replica.new ≡ state replica.old)
        × (batch.new ≡ batch.old) }
{
    let mut all = Vec::with_capacity(alloc, events.len())?;
    for event in events {
        let taken = take_event(alloc, replica, batch, event)?;
        all.push_reserved(taken);
    }
    Ok(all)
}
