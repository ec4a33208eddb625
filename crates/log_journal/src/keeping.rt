//! A replica and its journal go along: a batch of events is taken, and its notes are settled by one write and one sync.
//! What is sent or answered for it is handed out by the caller, after that.
ghost use Rattle.std.specs.Prelude.{◌≡◌, ◌≤◌, ◌<◌, ◌+◌, ◌^◌, ◌++◌, ◌∷◌, [], length, IfOk, IfErr, OnOk, OnErr, IsErrOf};
ghost use Rattle.journal.specs.Device.{HasRisen, LeavesOnly};
ghost use Rattle.journal.specs.Frames.{frames, recorded};
ghost use Rattle.journal.specs.Journal.{IsGrown, IsSettled};
ghost use Rattle.log_journal.specs.Kept.{IsHeld, IsMemory, IsMemoryOfTaken};
ghost use Rattle.log_journal.specs.Refused.{HasRoom, IsOfKeeping, IsOfKeepingOne, IsOfSettling};
ghost use Rattle.log_journal.specs.Taken.{IsTaken, MakesSome, given};
ghost use Rattle.log_journal.specs.Told.{Told};
ghost use Rattle.vr_state.specs.Step.{step as step_of};
ghost use Rattle.vr_state.specs.Views.{state};

use crate::batch::Batch;
use crate::error::NoteError;
use crate::laws::{taken_is_told, told_goes_on};
use crate::taking::{take_event, take_events};
use journal::{Device, GrowthError, Journal};
use ldap_op::Op;
use std::alloc::{AllocError, Global};
use vr_state::event::Event;
use vr_state::message::Outputs;
use vr_state::replica::Replica;

/// Why a batch isn't settled whose device didn't grow.
fn note_of_growth(error: GrowthError) -> NoteError
    ensures device { result ≡ NoteError.DeviceFailed → error ≡ GrowthError.DeviceFailed }
    ensures full { result ≡ NoteError.Full → error ≡ GrowthError.Full }
    ensures errors { IsOfSettling result }
{
    match error {
        GrowthError::Full => NoteError::Full,
        GrowthError::DeviceFailed => NoteError::DeviceFailed,
    }
}

/// Makes room for so many octets. E29 where the device can't grow so far.
fn make_room<J: Device>(journal: &mut Journal<J>, octets: u64) -> Result<(), NoteError>
    requires { IsHeld J.seen J.may_leave journal.old }
    ensures held { OnOk result (IsHeld J.seen J.may_leave journal.new) }
    ensures strings { OnOk result (recorded (J.seen journal.new.device) ≡ recorded (J.seen journal.old.device)) }
    ensures room { OnOk result (journal.new.end + octets ≤ length (J.seen journal.new.device)) }
    ensures small { OnOk result (length (J.seen journal.new.device) < 2 ^ 63) }
    ensures any_moment { LeavesOnly J.moment J.left_since journal.old.device journal.new.device
        (λ c. recorded c ≡ recorded (J.seen journal.old.device)) }
    ensures later { J.failure_count journal.old.device ≤ J.failure_count journal.new.device }
    ensures device_failed { IsErrOf result NoteError.DeviceFailed → HasRisen (J.failure_count journal.old.device)
        (J.failure_count journal.new.device) }
    ensures full { IsErrOf result NoteError.Full → HasRoom (J.seen journal.old.device) journal.old.end octets → ⊥ }
    ensures errors { IfErr result (λ e. IsOfSettling e) }
{
    match journal.reserve(octets) {
        Ok(()) => Ok(()),
        Err(error) => Err(note_of_growth(error)),
    }
}

/// Settles a batch of strings by one write and one sync, after more of each where the device must grow first; no
/// strings cost neither. E29 where it can't grow so far: nothing is written then but zeros. After an error the journal
/// must be opened again.
pub fn settle<J: Device>(journal: &mut Journal<J>, batch: &Batch) -> Result<(), NoteError>
    requires { IsHeld J.seen J.may_leave journal.old }
    ensures held { OnOk result (IsHeld J.seen J.may_leave journal.new) }
    ensures strings { OnOk result (recorded (J.seen journal.new.device) ≡ recorded (J.seen journal.old.device) ++
        batch.now) }
    ensures any_moment { LeavesOnly J.moment J.left_since journal.old.device journal.new.device
        (IsGrown (recorded (J.seen journal.old.device)) batch.now) }
    // No strings are settled without a call.
    ensures none { batch.now ≡ [] → journal.new ≡ journal.old }
    ensures device_failed { IsErrOf result NoteError.DeviceFailed → HasRisen (J.failure_count journal.old.device)
        (J.failure_count journal.new.device) }
    // It isn't full where there is room already.
    ensures full { IsErrOf result NoteError.Full
        → HasRoom (J.seen journal.old.device) journal.old.end (length (frames batch.now)) → ⊥ }
    ensures errors { IfErr result (λ e. IsOfSettling e) }
{
    if batch.is_empty() {
        return Ok(());
    }
    let octets = batch.octets();
    make_room(journal, octets.len() as u64)?;
    journal.append(octets)?;
    Ok(())
}

/// A replica takes an event, and its journal keeps it as it is then. The inner error is want of memory: the event is
/// left out, and neither the replica nor its journal has changed. After the outer one, which isn't, the replica and its
/// journal are of no use until the replica is started again.
pub fn keep_event<J: Device>(
    alloc: Global,
    replica: &mut Replica<Op>,
    journal: &mut Journal<J>,
    event: Event<Op>,
) -> Result<Result<Outputs<Op>, AllocError>, NoteError>
    requires { IsHeld J.seen J.may_leave journal.old }
    // The event makes its step.
    ensures step { IfOk result (λ taken. IfOk taken (λ out.
        given (state replica.new) out ≡ step_of replica.old.count replica.old.index (state replica.old) event)) }
    ensures left_out { IfOk result (λ taken. OnErr taken ((state replica.new ≡ state replica.old)
        × (journal.new ≡ journal.old))) }
    ensures index { replica.new.index ≡ replica.old.index }
    ensures count { replica.new.count ≡ replica.old.count }
    // The journal is settled, and tells the replica as it is now.
    ensures held { OnOk result (IsHeld J.seen J.may_leave journal.new) }
    ensures memory { OnOk result ((t : Told) → IsMemory t (state replica.old) (recorded (J.seen journal.old.device))
        → IsMemory t (state replica.new) (recorded (J.seen journal.new.device))) }
    // A crash at any moment of the call leaves the replica as it is before the event or after it.
    ensures any_moment { (t : Told) → IsMemory t (state replica.old) (recorded (J.seen journal.old.device))
        → LeavesOnly J.moment J.left_since journal.old.device journal.new.device
        (λ c. IsMemoryOfTaken t replica.old.count replica.old.index (state replica.old) (event ∷ []) (recorded c)) }
    ensures device_failed { IsErrOf result NoteError.DeviceFailed → HasRisen (J.failure_count journal.old.device)
        (J.failure_count journal.new.device) }
    // At an error the replica is as it is before the event or after it.
    ensures late { OnErr result (MakesSome replica.old.count replica.old.index (state replica.old) (event ∷ [])
        (state replica.new)) }
    ensures errors { IfErr result (λ e. IsOfKeepingOne e) }
{
    taken_is_told();
    told_goes_on();
    let mut batch = Batch::new(alloc);
    let taken = match take_event(alloc, replica, &mut batch, event) {
        Ok(taken) => taken,
        Err(error) => return Err(error),
    };
    settle(journal, &batch)?;
    Ok(taken)
}

/// A replica takes these events, and its journal keeps it as it is then. Each event gives its outputs, or is left out
/// for want of memory; so is the whole, and then neither the replica nor its journal has changed. After another error
/// of the whole the replica and its journal are of no use until the replica is started again.
pub fn keep_events<J: Device>(
    alloc: Global,
    replica: &mut Replica<Op>,
    journal: &mut Journal<J>,
    events: Vec<Event<Op>>,
) -> Result<Vec<Result<Outputs<Op>, AllocError>>, NoteError>
    requires { IsHeld J.seen J.may_leave journal.old }
    // Each event makes its step, or is left out.
    ensures taken { IfOk result (λ taken. IsTaken replica.old.count replica.old.index (state replica.old) events.items
        taken.items (state replica.new)) }
    ensures index { replica.new.index ≡ replica.old.index }
    ensures count { replica.new.count ≡ replica.old.count }
    // The journal is settled, and tells the replica as it is now.
    ensures held { OnOk result (IsHeld J.seen J.may_leave journal.new) }
    ensures memory { OnOk result ((t : Told) → IsMemory t (state replica.old) (recorded (J.seen journal.old.device))
        → IsMemory t (state replica.new) (recorded (J.seen journal.new.device))) }
    // A crash at any moment of the call leaves the replica as it is after some first of the events that were taken.
    ensures any_moment { (t : Told) → IsMemory t (state replica.old) (recorded (J.seen journal.old.device))
        → LeavesOnly J.moment J.left_since journal.old.device journal.new.device
        (λ c. IsMemoryOfTaken t replica.old.count replica.old.index (state replica.old) events.items (recorded c)) }
    ensures no_memory { IsErrOf result NoteError.NoMemory → (state replica.new ≡ state replica.old)
        × (journal.new ≡ journal.old) }
    ensures device_failed { IsErrOf result NoteError.DeviceFailed → HasRisen (J.failure_count journal.old.device)
        (J.failure_count journal.new.device) }
    // At an error the replica is as it is after some first of the events.
    ensures late { OnErr result (MakesSome replica.old.count replica.old.index (state replica.old) events.items
        (state replica.new)) }
    ensures errors { IfErr result (λ e. IsOfKeeping e) }
{
    taken_is_told();
    told_goes_on();
    let mut batch = Batch::new(alloc);
    let taken = match take_events(alloc, replica, &mut batch, events) {
        Ok(taken) => taken,
        Err(error) => return Err(error),
    };
    settle(journal, &batch)?;
    Ok(taken)
}
