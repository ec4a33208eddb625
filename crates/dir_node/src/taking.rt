//! A replica takes events, and its journal, where it keeps one, goes along. Nothing that comes of them is handed out
//! here: the pair is stored before that, by the caller.
ghost use Rattle.std.specs.Prelude.{◌≡◌, ◌∷◌, [], Some, None, is_some, IfOk, IfErr, IsErrOf, OnOk};
ghost use Rattle.dir_node.specs.Handling.{MakesSteps};
ghost use Rattle.dir_node.specs.Logged.{HasRisenIn, LeavesOnlyIn, TellsSome, device_in};
ghost use Rattle.dir_node.specs.private.Logged.{GoesAlong, IsHeldIn, IsToldIn};
ghost use Rattle.dir_node.specs.NodeState.{given};
ghost use Rattle.dir_node.specs.declared.fault.Untaken.TheVariants as untaken;
ghost use Rattle.log_journal.specs.Refused.{IsOfKeepingOne};
ghost use Rattle.log_journal.specs.Taken.{MakesSome};
ghost use Rattle.log_journal.specs.Told.{Told};
ghost use Rattle.vr_state.specs.Step.{step as step_of};
ghost use Rattle.vr_state.specs.Views.{state};

use crate::fault::Untaken;
use log_journal::{Device as JournalDevice, Journal, NoteError, keep_event, keep_events, step};
use state_machine::Op;
use std::alloc::{AllocError, Global};
use vr_state::event::Event;
use vr_state::message::Outputs;
use vr_state::replica::Replica;

/// A replica takes an event, and its journal keeps it as it is then. `NoMemory` leaves the event out: nothing has
/// changed. After another error the replica and its journal are of no use until the replica is started again.
fn take_noted<J: JournalDevice>(
    alloc: Global,
    replica: &mut Replica<Op>,
    journal: &mut Journal<J>,
    event: Event<Op>,
) -> Result<Outputs<Op>, Untaken>
    requires held { IsHeldIn J.seen J.may_leave (Some journal.old) }
    ensures step { IfOk result (λ out. given (state replica.new) out ≡ step_of replica.old.count replica.old.index
        (state replica.old) event) }
    ensures no_memory { IsErrOf result Untaken.NoMemory → (state replica.new ≡ state replica.old)
        × (journal.new ≡ journal.old) }
    ensures index { replica.new.index ≡ replica.old.index }
    ensures count { replica.new.count ≡ replica.old.count }
    ensures kept { OnOk result (GoesAlong J.seen J.may_leave (state replica.old) (state replica.new)
        (Some journal.old) (Some journal.new)) }
    ensures any_moment { (t : Told) → IsToldIn J.seen (Some journal.old) t (state replica.old)
        → LeavesOnlyIn J.moment J.left_since (Some journal.old.device) (Some journal.new.device)
        (TellsSome t replica.old.count replica.old.index (state replica.old) (event ∷ [])) }
    ensures noted { (e : NoteError) → IsErrOf result (Untaken.Journal e) → IsOfKeepingOne e }
    ensures late { (e : NoteError) → IsErrOf result (Untaken.Journal e)
        → MakesSome replica.old.count replica.old.index (state replica.old) (event ∷ []) (state replica.new) }
    ensures device_failed { IsErrOf result (Untaken.Journal NoteError.DeviceFailed)
        → HasRisenIn J.failure_count (Some journal.old.device) (Some journal.new.device) }
{
    match keep_event(alloc, replica, journal, event) {
        Ok(Ok(outputs)) => Ok(outputs),
        Ok(Err(_)) => Err(Untaken::NoMemory),
        Err(error) => Err(Untaken::Journal(error)),
    }
}

/// A replica takes an event, and its journal, where it keeps one, keeps it as it is then. `NoMemory` leaves the event
/// out: nothing has changed. After another error, which isn't want of memory, the replica and its journal are of no use
/// until the replica is started again.
pub fn take_one<J: JournalDevice>(
    alloc: Global,
    replica: &mut Replica<Op>,
    journal: &mut Option<Journal<J>>,
    event: Event<Op>,
) -> Result<Outputs<Op>, Untaken>
    requires held { IsHeldIn J.seen J.may_leave journal.old }
    ensures step { IfOk result (λ out. given (state replica.new) out ≡ step_of replica.old.count replica.old.index
        (state replica.old) event) }
    ensures no_memory { IsErrOf result Untaken.NoMemory → (state replica.new ≡ state replica.old)
        × (journal.new ≡ journal.old) }
    ensures index { replica.new.index ≡ replica.old.index }
    ensures count { replica.new.count ≡ replica.old.count }
    ensures journaled { is_some journal.new ≡ is_some journal.old }
    ensures kept { OnOk result (GoesAlong J.seen J.may_leave (state replica.old) (state replica.new) journal.old
        journal.new) }
    ensures any_moment { (t : Told) → IsToldIn J.seen journal.old t (state replica.old)
        → LeavesOnlyIn J.moment J.left_since (device_in journal.old) (device_in journal.new)
        (TellsSome t replica.old.count replica.old.index (state replica.old) (event ∷ [])) }
    ensures noted { (e : NoteError) → IsErrOf result (Untaken.Journal e) → IsOfKeepingOne e }
    ensures late { (e : NoteError) → IsErrOf result (Untaken.Journal e)
        → MakesSome replica.old.count replica.old.index (state replica.old) (event ∷ []) (state replica.new) }
    ensures device_failed { IsErrOf result (Untaken.Journal NoteError.DeviceFailed)
        → HasRisenIn J.failure_count (device_in journal.old) (device_in journal.new) }
    ensures alone { journal.old ≡ None → IfErr result (λ e. e ≡ untaken.NoMemory) }
{
    match journal {
        Some(journal) => take_noted(alloc, replica, journal, event),
        None => {
            let outputs = step(alloc, replica, event)?;
            Ok(outputs)
        }
    }
}

/// A replica makes the steps of these events, one after another. Each gives its outputs, or is left out for want of
/// memory; the error of the whole is want of memory too, and comes before any step.
fn step_all(
    alloc: Global,
    replica: &mut Replica<Op>,
    events: Vec<Event<Op>>,
) -> Result<Vec<Result<Outputs<Op>, AllocError>>, AllocError>
    ensures taken { IfOk result (λ outputs. MakesSteps replica.old.count replica.old.index (state replica.old)
        events.items outputs.items (state replica.new)) }
    ensures err { IfErr result (λ _. state replica.new ≡ state replica.old) }
    ensures index { replica.new.index ≡ replica.old.index }
    ensures count { replica.new.count ≡ replica.old.count }
{
    let mut all = Vec::with_capacity(alloc, events.len())?;
    for event in events {
        all.push_reserved(step(alloc, replica, event));
    }
    Ok(all)
}

/// A replica takes these events, one after another, and its journal, where it keeps one, keeps it as it is then, by one
/// write and one sync. Each event gives its outputs, or is left out for want of memory; at `NoMemory` all are left out,
/// and nothing has changed. After another error, which isn't want of memory, the replica and its journal are of no use
/// until the replica is started again.
pub fn take_all<J: JournalDevice>(
    alloc: Global,
    replica: &mut Replica<Op>,
    journal: &mut Option<Journal<J>>,
    events: Vec<Event<Op>>,
) -> Result<Vec<Result<Outputs<Op>, AllocError>>, Untaken>
    requires held { IsHeldIn J.seen J.may_leave journal.old }
    ensures taken { IfOk result (λ outputs. MakesSteps replica.old.count replica.old.index (state replica.old)
        events.items outputs.items (state replica.new)) }
    ensures no_memory { IsErrOf result Untaken.NoMemory → (state replica.new ≡ state replica.old)
        × (journal.new ≡ journal.old) }
    ensures index { replica.new.index ≡ replica.old.index }
    ensures count { replica.new.count ≡ replica.old.count }
    ensures journaled { is_some journal.new ≡ is_some journal.old }
    ensures kept { OnOk result (GoesAlong J.seen J.may_leave (state replica.old) (state replica.new) journal.old
        journal.new) }
    ensures any_moment { (t : Told) → IsToldIn J.seen journal.old t (state replica.old)
        → LeavesOnlyIn J.moment J.left_since (device_in journal.old) (device_in journal.new)
        (TellsSome t replica.old.count replica.old.index (state replica.old) events.items) }
    ensures noted { (e : NoteError) → IsErrOf result (Untaken.Journal e) → IsOfKeepingOne e }
    ensures late { (e : NoteError) → IsErrOf result (Untaken.Journal e)
        → MakesSome replica.old.count replica.old.index (state replica.old) events.items (state replica.new) }
    ensures device_failed { IsErrOf result (Untaken.Journal NoteError.DeviceFailed)
        → HasRisenIn J.failure_count (device_in journal.old) (device_in journal.new) }
    ensures alone { journal.old ≡ None → IfErr result (λ e. e ≡ untaken.NoMemory) }
{
    match journal {
        Some(journal) => match keep_events(alloc, replica, journal, events) {
            Ok(outputs) => Ok(outputs),
            Err(NoteError::NoMemory) => Err(Untaken::NoMemory),
            Err(error) => Err(Untaken::Journal(error)),
        },
        None => {
            let outputs = step_all(alloc, replica, events)?;
            Ok(outputs)
        }
    }
}
