//! A node with a journal at its start: what the journal tells is read, and the replica that goes with it and with the
//! pair is made; what the start notes is settled before the pair is stored, and both before anything is handed out.
ghost use Rattle.std.specs.Prelude.{◌≡◌, ◌≢◌, ◌⊎◌, ℕ, ◌+◌, ◌<◌, ◌≤◌, ◌∷◌, ◌++◌, ◌^◌, List, [], drop, false, Some, is_some, IfOk, IfErr, OnOk, IsErrOf, IsTrue};
ghost use Rattle.dir_node.specs.Faults.{IsEarly};
ghost use Rattle.dir_node.specs.private.Faults.{IsClearFault, IsLogFault, IsNoteFault, IsOpenFault, IsWriteFault};
ghost use Rattle.dir_node.specs.Logged.{FirstLeaves, HasRisenIn, IsNotEmpty, IsUnwritten, LeavesOnlyIn, ReadsAsBefore, RefusedLeaves, device_in, head_of};
ghost use Rattle.dir_node.specs.private.Logged.{IsHeldIn, IsToldIn};
ghost use Rattle.dir_node.specs.private.NodeState.{Holds};
ghost use Rattle.dir_node.specs.Restarting.{CannotRestart, GoTogether, IsForeign, IsOf, IsStale, RestartLeaves, RestartNotes, begins, change_of, first_notes, may_resume, recovered, resumed};
ghost use Rattle.dir_node.specs.private.Ways.{IsMadeBy, IsStaleOf, IsStartedOver, IsWay, IsWayOf, start_by};
ghost use Rattle.dir_node.specs.declared.error.NodeError.TheVariants as error;
ghost use Rattle.log_journal.specs.Found.{HasAnotherVersion, IsFound};
ghost use Rattle.log_journal.specs.Kept.{IsHeld, IsMemory};
ghost use Rattle.log_journal.specs.Notes.{Puts, Start};
ghost use Rattle.log_journal.specs.Refused.{HasDamage};
ghost use Rattle.log_journal.specs.Told.{Tells, nothing_told, Told as Telling};
ghost use Rattle.log_journal.specs.Views.{told_view};
ghost use Rattle.log_journal.specs.journal.Device.{HasRisen as LogHasRisen, LeavesOnly as LogLeavesOnly, Only as LogOnly};
ghost use Rattle.log_journal.specs.journal.Frames.{is_whole, recorded};
ghost use Rattle.log_journal.specs.journal.Reading.{HasRead};
ghost use Rattle.log_journal.specs.journal.Journal.{IsGrown};
ghost use Rattle.view_store.specs.Device.{HasRisen, LeavesOnly, Only};
ghost use Rattle.view_store.specs.Slots.{found, foreign, IsWellPlaced, sequence_of, taken_from};
ghost use Rattle.view_store.specs.Store.{IsFormerOrNew};
ghost use Rattle.view_store.specs.declared.state.Status.TheVariants as status;
ghost use Rattle.vr_state.specs.State.{first, resuming};
ghost use Rattle.vr_state.specs.Views.{state};

use crate::error::NodeError;
use crate::made::Made;
use crate::owner::Owner;
use crate::way::Way;
use log_journal::{
    Batch, Device as JournalDevice, Journal, JournalError, NoteError, StringReader, Told, clear,
    put_begin, put_start, read, recover, settle,
};
use state_machine::Op;
use std::alloc::{AllocError, Global};
use view_store::{Device, MAX_NUMBER, Pair, ViewStore, ViewStoreError};
use vr_state::message::Change;
use vr_state::replica::Replica;
use vr_state::sending::sending;

/// A refusal of notes that a start spells.
// prover: notes are refused memory, or are too long for a batch
fn refusal_at_start(error: NoteError) -> NodeError
    ensures { IsNoteFault result }
{
    match error {
        NoteError::NoMemory => NodeError::NoMemory,
        _ => NodeError::Journal(NoteError::Full),
    }
}

/// Why a journal wasn't opened.
fn refusal_at_opening(error: NoteError) -> NodeError
    ensures fault { IsOpenFault result }
    ensures device { result ≡ NodeError.Journal NoteError.DeviceFailed → error ≡ NoteError.DeviceFailed }
    ensures version { result ≡ NodeError.Journal NoteError.AnotherVersion → error ≡ NoteError.AnotherVersion }
    ensures damaged { result ≡ NodeError.Journal NoteError.Damaged → error ≡ NoteError.Damaged }
{
    match error {
        NoteError::NoMemory => NodeError::NoMemory,
        note => NodeError::Journal(note),
    }
}

/// Why a start's notes weren't settled.
// prover: a batch that waits is refused for want of room, or by the device
fn refusal_of_writing(refused: NoteError) -> NodeError
    ensures fault { IsWriteFault result }
    ensures log { (f : NoteError) × (result ≡ NodeError.Journal f) }
    ensures device { result ≡ NodeError.Journal NoteError.DeviceFailed → refused ≡ NoteError.DeviceFailed }
{
    match refused {
        NoteError::DeviceFailed => NodeError::Journal(NoteError::DeviceFailed),
        _ => NodeError::Journal(NoteError::Full),
    }
}

/// Why a journal that is to hold nothing wasn't read.
fn refusal_of(error: JournalError) -> NodeError
    ensures memory { error ≡ JournalError.NoMemory → result ≡ NodeError.NoMemory }
    ensures device { error ≡ JournalError.DeviceFailed → result ≡ NodeError.Journal NoteError.DeviceFailed }
{
    match error {
        JournalError::NoMemory => NodeError::NoMemory,
        JournalError::DeviceFailed => NodeError::Journal(NoteError::DeviceFailed),
    }
}

/// Reads a journal: what its strings tell; nothing, where it has none; and a reader behind them. What a crash left
/// unsettled is settled, and nothing is written.
fn read_log<J: JournalDevice>(
    alloc: Global,
    journal: &mut Journal<J>,
) -> Result<(Option<Told>, StringReader), NodeError>
    ensures told { IfOk result (λ found. IsFound found.0 (recorded (J.seen journal.old.device))) }
    ensures read { IfOk result (λ found. HasRead found.1 (J.seen journal.new.device)) }
    ensures none { IfOk result (λ found. is_whole (drop found.1.end (J.seen journal.new.device)) ≡ false) }
    ensures seen { J.seen journal.new.device ≡ J.seen journal.old.device }
    ensures durable { OnOk result (LogOnly (J.seen journal.new.device) (J.may_leave journal.new.device)) }
    ensures any_moment { LogLeavesOnly J.moment J.left_since journal.old.device journal.new.device
        (ReadsAsBefore J.seen J.may_leave journal.old.device) }
    ensures later { J.failure_count journal.old.device ≤ J.failure_count journal.new.device }
    ensures failed { IsErrOf result (NodeError.Journal NoteError.DeviceFailed)
        → LogHasRisen (J.failure_count journal.old.device) (J.failure_count journal.new.device) }
    ensures version { IsErrOf result (NodeError.Journal NoteError.AnotherVersion) →
        HasAnotherVersion (recorded (J.seen journal.old.device)) }
    ensures damaged { IsErrOf result (NodeError.Journal NoteError.Damaged) →
        HasDamage (recorded (J.seen journal.old.device)) }
    ensures causes { IfErr result IsOpenFault }
{
    match journal.device.sync() {
        Ok(()) => {}
        Err(_) => return Err(NodeError::Journal(NoteError::DeviceFailed)),
    }
    match read(alloc, journal) {
        Ok(found) => Ok(found),
        Err(error) => Err(refusal_at_opening(error)),
    }
}

/// Reads a journal that is to hold nothing, and gives a reader in front of what stands there; E26 where it holds
/// something. Nothing is written.
fn read_first<J: JournalDevice>(
    alloc: Global,
    journal: &mut Journal<J>,
) -> Result<StringReader, NodeError>
    ensures empty { OnOk result (recorded (J.seen journal.old.device) ≡ []) }
    ensures read { IfOk result (λ reader. HasRead reader (J.seen journal.new.device)) }
    ensures none { IfOk result (λ reader. is_whole (drop reader.end (J.seen journal.new.device)) ≡ false) }
    ensures seen { J.seen journal.new.device ≡ J.seen journal.old.device }
    ensures durable { OnOk result (LogOnly (J.seen journal.new.device) (J.may_leave journal.new.device)) }
    ensures any_moment { LogLeavesOnly J.moment J.left_since journal.old.device journal.new.device
        (ReadsAsBefore J.seen J.may_leave journal.old.device) }
    ensures later { J.failure_count journal.old.device ≤ J.failure_count journal.new.device }
    ensures stale { IsErrOf result NodeError.StaleJournal → recorded (J.seen journal.old.device) ≢ [] }
    ensures failed { IsErrOf result (NodeError.Journal NoteError.DeviceFailed)
        → LogHasRisen (J.failure_count journal.old.device) (J.failure_count journal.new.device) }
    ensures causes { IfErr result (λ e. (e ≡ error.NoMemory) ⊎ (e ≡ error.Journal NoteError.DeviceFailed)
        ⊎ (e ≡ error.StaleJournal)) }
{
    match journal.device.sync() {
        Ok(()) => {}
        Err(_) => return Err(NodeError::Journal(NoteError::DeviceFailed)),
    }
    match journal.read_empty(alloc) {
        Ok(found) => match found {
            Some(reader) => Ok(reader),
            None => Err(NodeError::StaleJournal),
        },
        Err(error) => Err(refusal_of(error)),
    }
}

/// Clears what stands behind the strings of a journal that were read; it may be written to then. Out of memory, nothing
/// is written.
fn clear_log<J: JournalDevice>(
    alloc: Global,
    journal: &mut Journal<J>,
    reader: &StringReader,
) -> Result<(), NodeError>
    requires read { HasRead reader.now (J.seen journal.old.device) }
    requires none { is_whole (drop reader.now.end (J.seen journal.old.device)) ≡ false }
    requires durable { LogOnly (J.seen journal.old.device) (J.may_leave journal.old.device) }
    ensures held { OnOk result (IsHeld J.seen J.may_leave journal.new) }
    ensures strings { OnOk result (recorded (J.seen journal.new.device) ≡ recorded (J.seen journal.old.device)) }
    ensures no_memory { IsErrOf result NodeError.NoMemory → J.seen journal.new.device ≡ J.seen journal.old.device }
    ensures any_moment { LogLeavesOnly J.moment J.left_since journal.old.device journal.new.device
        (λ c. recorded c ≡ recorded (J.seen journal.old.device)) }
    ensures later { J.failure_count journal.old.device ≤ J.failure_count journal.new.device }
    ensures failed { IsErrOf result (NodeError.Journal NoteError.DeviceFailed)
        → LogHasRisen (J.failure_count journal.old.device) (J.failure_count journal.new.device) }
    ensures causes { IfErr result IsClearFault }
{
    match clear(alloc, journal, reader) {
        Ok(()) => Ok(()),
        Err(NoteError::NoMemory) => Err(NodeError::NoMemory),
        Err(_) => Err(NodeError::Journal(NoteError::DeviceFailed)),
    }
}

/// Whether a journal is this replica's.
fn check_owner(told: &Told, owner: Owner) -> Result<(), NodeError>
    ensures ok { OnOk result (IsOf owner (told_view told.now)) }
    ensures foreign { IsErrOf result NodeError.ForeignJournal → told.now.cluster ≢ owner.cluster }
    ensures stale { IsErrOf result NodeError.StaleJournal → (told.now.index ≢ owner.index)
        ⊎ (told.now.count ≢ owner.count) }
    ensures causes { IfErr result (λ e. (e ≡ error.ForeignJournal) ⊎ (e ≡ error.StaleJournal)) }
{
    if told.cluster != owner.cluster {
        return Err(NodeError::ForeignJournal);
    }
    if told.index != owner.index || told.count != owner.count {
        return Err(NodeError::StaleJournal);
    }
    Ok(())
}

/// Whether a replica may go on from what a journal tells.
fn may_resume(told: &Told) -> bool
    ensures { result ≡ may_resume (told_view told.now) }
{
    told.is_whole && 0 < told.restarts
}

/// Whether a pair and a journal go together.
fn go_together(pair: Pair, told: &Told) -> bool
    requires small { pair.restarts < 2 ^ 63 }
    ensures yes { IsTrue result → GoTogether pair (told_view told.now) }
    ensures no { result ≡ false → GoTogether pair (told_view told.now) → ⊥ }
{
    pair.journaled
        && (told.restarts == pair.restarts || told.restarts == pair.restarts + 1)
        && pair.view <= told.view_number
        && told.view_number <= MAX_NUMBER
}

/// How a replica starts over what its journal tells.
fn way_of(told: Told, pair: Pair, owner: Owner) -> Result<Way, NodeError>
    requires small { pair.restarts < 2 ^ 63 }
    ensures way { IfOk result (λ way. IsWayOf owner pair (told_view told) way) }
    ensures foreign { IsErrOf result NodeError.ForeignJournal → told.cluster ≢ owner.cluster }
    ensures stale { IsErrOf result NodeError.StaleJournal → IsStaleOf owner pair (told_view told) }
    ensures causes { IfErr result (λ e. (e ≡ error.ForeignJournal) ⊎ (e ≡ error.StaleJournal)) }
{
    check_owner(&told, owner)?;
    if !may_resume(&told) {
        return Ok(Way::BeginAgain);
    }
    if !go_together(pair, &told) {
        return Err(NodeError::StaleJournal);
    }
    Ok(Way::Resume(told))
}

/// How a replica starts over what was found in its journal.
fn way_over(found: Option<Told>, pair: Pair, owner: Owner) -> Result<Way, NodeError>
    requires small { pair.restarts < 2 ^ 63 }
    ensures way { (strings : List (List ℕ)) → IsFound found strings →
        IfOk result (λ way. IsWay owner pair strings way) }
    ensures foreign { (strings : List (List ℕ)) → IsFound found strings → IsErrOf result NodeError.ForeignJournal →
        IsForeign owner strings }
    ensures stale { (strings : List (List ℕ)) → IsFound found strings → IsErrOf result NodeError.StaleJournal
        → (t : Telling) × Tells nothing_told strings t × IsStaleOf owner pair t }
    ensures causes { IfErr result (λ e. (e ≡ error.ForeignJournal) ⊎ (e ≡ error.StaleJournal)) }
{
    match found {
        Some(told) => way_of(told, pair, owner),
        None => Ok(Way::Begin),
    }
}

/// Reads a journal, and finds how its replica starts over it; with a reader behind its strings. Nothing is written.
fn find_way<J: JournalDevice>(
    alloc: Global,
    journal: &mut Journal<J>,
    pair: Pair,
    owner: Owner,
) -> Result<(Way, StringReader), NodeError>
    requires small { pair.restarts < 2 ^ 63 }
    ensures way { IfOk result (λ found. IsWay owner pair (recorded (J.seen journal.old.device)) found.0) }
    ensures read { IfOk result (λ found. HasRead found.1 (J.seen journal.new.device)) }
    ensures none { IfOk result (λ found. is_whole (drop found.1.end (J.seen journal.new.device)) ≡ false) }
    ensures seen { J.seen journal.new.device ≡ J.seen journal.old.device }
    ensures durable { OnOk result (LogOnly (J.seen journal.new.device) (J.may_leave journal.new.device)) }
    ensures any_moment { LogLeavesOnly J.moment J.left_since journal.old.device journal.new.device
        (ReadsAsBefore J.seen J.may_leave journal.old.device) }
    ensures later { J.failure_count journal.old.device ≤ J.failure_count journal.new.device }
    ensures foreign { IsErrOf result NodeError.ForeignJournal → IsForeign owner (recorded (J.seen journal.old.device)) }
    ensures stale { IsErrOf result NodeError.StaleJournal
        → (t : Telling) × Tells nothing_told (recorded (J.seen journal.old.device)) t × IsStaleOf owner pair t }
    ensures failed { IsErrOf result (NodeError.Journal NoteError.DeviceFailed)
        → LogHasRisen (J.failure_count journal.old.device) (J.failure_count journal.new.device) }
    ensures version { IsErrOf result (NodeError.Journal NoteError.AnotherVersion) →
        HasAnotherVersion (recorded (J.seen journal.old.device)) }
    ensures damaged { IsErrOf result (NodeError.Journal NoteError.Damaged) →
        HasDamage (recorded (J.seen journal.old.device)) }
    ensures causes { IfErr result IsLogFault }
{
    let (found, reader) = read_log(alloc, journal)?;
    let way = way_over(found, pair, owner)?;
    Ok((way, reader))
}

/// A batch that begins with whose the journal is, where it is new.
fn begun(alloc: Global, owner: Owner, is_new: bool) -> Result<Batch, NodeError>
    ensures notes { IfOk result (λ batch. Puts (begins is_new owner) [] batch) }
    ensures causes { IfErr result IsNoteFault }
{
    let mut batch = Batch::new(alloc);
    if is_new {
        match put_begin(alloc, &mut batch, owner.cluster, owner.index, owner.count) {
            Ok(()) => {}
            Err(error) => return Err(refusal_at_start(error)),
        }
    }
    Ok(batch)
}

/// The notes of a start.
fn start_notes(
    alloc: Global,
    owner: Owner,
    is_new: bool,
    pair: Pair,
    is_whole: bool,
) -> Result<Batch, NodeError>
    ensures notes { IfOk result (λ batch. Puts (begins is_new owner ++ Start pair.restarts pair.view is_whole ∷ []) []
        batch) }
    ensures causes { IfErr result IsNoteFault }
{
    let mut batch = begun(alloc, owner, is_new)?;
    match put_start(alloc, &mut batch, pair.restarts, pair.view, is_whole) {
        Ok(()) => Ok(batch),
        Err(error) => Err(refusal_at_start(error)),
    }
}

/// The start of a replica that recovers in its stored view.
fn make_recovering(alloc: Global, pair: Pair, owner: Owner, is_new: bool) -> Result<Made, NodeError>
    requires within { owner.index < owner.count }
    requires small { pair.restarts + 2 < 2 ^ 63 }
    ensures made { IfOk result (λ m. IsMadeBy owner (recovered is_new owner pair) m) }
    ensures causes { IfErr result IsNoteFault }
{
    let next = Pair {
        view: pair.view,
        restarts: pair.restarts + 2,
        journaled: true,
    };
    let batch = start_notes(alloc, owner, is_new, next, false)?;
    let (replica, outputs) = recover(alloc, owner.index, owner.count, next.view, next.restarts)?;
    Ok(Made {
        replica,
        outputs,
        pair: next,
        batch,
        catch_up: 0,
    })
}

/// The start of a replica that goes on from what its journal tells.
fn make_resuming(alloc: Global, pair: Pair, owner: Owner, told: Told) -> Result<Made, NodeError>
    requires within { owner.index < owner.count }
    requires small { pair.restarts + 2 < 2 ^ 63 }
    ensures made { IfOk result (λ m. IsMadeBy owner (resumed owner pair (told_view told)) m) }
    ensures causes { IfErr result IsNoteFault }
{
    let next = Pair {
        view: told.view_number,
        restarts: pair.restarts + 1,
        journaled: true,
    };
    let batch = start_notes(alloc, owner, false, next, true)?;
    let catch_up = told.log.len() as u64;
    let replica = resume(alloc, owner, told)?;
    Ok(Made {
        replica,
        outputs: sending(alloc, Vec::new(alloc)),
        pair: next,
        batch,
        catch_up,
    })
}

/// The replica that a journal tells.
fn resume(alloc: Global, owner: Owner, told: Told) -> Result<Replica<Op>, AllocError>
    requires { owner.index < owner.count }
    ensures state { IfOk result (λ replica. let t = told_view told in
        state replica ≡ resuming owner.count t.kept.view t.kept.k (change_of t.kept)) }
    ensures index { IfOk result (λ replica. replica.index ≡ owner.index) }
    ensures count { IfOk result (λ replica. replica.count ≡ owner.count) }
{
    let Told {
        log,
        view_number,
        last_normal_view,
        commit_number,
        ..
    } = told;
    let change = Change {
        log,
        last_normal_view,
        commit_number,
    };
    Replica::resuming(
        alloc,
        owner.index,
        owner.count,
        view_number,
        commit_number,
        change,
    )
}

/// The start on a way.
fn make_start(alloc: Global, pair: Pair, owner: Owner, way: Way) -> Result<Made, NodeError>
    requires within { owner.index < owner.count }
    requires small { pair.restarts + 2 < 2 ^ 63 }
    ensures made { IfOk result (λ m. IsMadeBy owner (start_by owner pair way) m) }
    ensures causes { IfErr result IsNoteFault }
{
    match way {
        Way::Begin => make_recovering(alloc, pair, owner, true),
        Way::BeginAgain => make_recovering(alloc, pair, owner, false),
        Way::Resume(told) => make_resuming(alloc, pair, owner, told),
    }
}

/// Settles what a start notes, and then stores its pair.
pub fn store_start<D: Device, J: JournalDevice>(
    views: &mut ViewStore<D>,
    journal: &mut Journal<J>,
    batch: &Batch,
    pair: Pair,
) -> Result<(), NodeError>
    requires ready { views.old.status ≡ status.Ready }
    requires settled { Only (D.seen views.old.device) (D.may_leave views.old.device) }
    requires held { IsHeld J.seen J.may_leave journal.old }
    ensures stored { OnOk result (Holds D.seen D.may_leave views.new pair) }
    ensures cluster { views.new.cluster ≡ views.old.cluster }
    ensures placed { OnOk result (IsWellPlaced (D.seen views.old.device) → IsWellPlaced (D.seen views.new.device)) }
    ensures any_moment { IsWellPlaced (D.seen views.old.device) → LeavesOnly D.moment D.left_since views.old.device
        views.new.device
        (IsFormerOrNew views.old.cluster (found views.old.cluster (D.seen views.old.device)) pair) }
    ensures held { OnOk result (IsHeld J.seen J.may_leave journal.new) }
    ensures strings { OnOk result (recorded (J.seen journal.new.device) ≡ recorded (J.seen journal.old.device) ++
        batch.now) }
    ensures any_log_moment { LogLeavesOnly J.moment J.left_since journal.old.device journal.new.device
        (IsGrown (recorded (J.seen journal.old.device)) batch.now) }
    // Until the journal is settled, the pair's device isn't called.
    ensures log_same { (f : NoteError) → IsErrOf result (NodeError.Journal f) → views.new ≡ views.old }
    ensures same { IfErr result (λ e. e ≢ error.Store ViewStoreError.DeviceFailed → D.seen views.new.device ≡
        D.seen views.old.device) }
    ensures device_failed { IsErrOf result (NodeError.Store ViewStoreError.DeviceFailed)
        → HasRisen (D.failure_count views.old.device) (D.failure_count views.new.device) }
    ensures no_pair { IsErrOf result (NodeError.Store ViewStoreError.NoPair)
        → (2 ^ 63 ≤ pair.view) ⊎ (2 ^ 63 ≤ pair.restarts)
        ⊎ (2 ^ 63 ≤ sequence_of (taken_from (D.seen views.old.device)) + 1) }
    ensures no_pair_same { IsErrOf result (NodeError.Store ViewStoreError.NoPair) → D.seen views.new.device ≡
        D.seen views.old.device }
    ensures log_failed { IsErrOf result (NodeError.Journal NoteError.DeviceFailed)
        → LogHasRisen (J.failure_count journal.old.device) (J.failure_count journal.new.device) }
    ensures causes { IfErr result IsWriteFault }
{
    match settle(journal, batch) {
        Ok(()) => {}
        Err(error) => return Err(refusal_of_writing(error)),
    }
    match views.store(pair) {
        Ok(()) => Ok(()),
        Err(error) => Err(NodeError::Store(error)),
    }
}

/// The start of a replica over the pair that its device holds and over its journal: both hold what goes with it then.
pub fn start_over<D: Device, J: JournalDevice>(
    alloc: Global,
    views: &mut ViewStore<D>,
    journal: &mut Journal<J>,
    owner: Owner,
) -> Result<Made, NodeError>
    requires within { owner.index < owner.count }
    requires cluster { views.old.cluster ≡ owner.cluster }
    requires new { views.old.status ≢ status.Failed }
    ensures made { IfOk result (λ m. IsStartedOver owner (found owner.cluster (D.seen views.old.device))
        (recorded (J.seen journal.old.device)) m) }
    ensures stored { IfOk result (λ m. Holds D.seen D.may_leave views.new m.pair) }
    ensures cluster { OnOk result (views.new.cluster ≡ views.old.cluster) }
    ensures placed { OnOk result (IsWellPlaced (D.seen views.old.device) → IsWellPlaced (D.seen views.new.device)) }
    ensures held { OnOk result (IsHeld J.seen J.may_leave journal.new) }
    ensures told { IfOk result (λ m. IsMemory (head_of owner.cluster owner.index owner.count m.pair.restarts)
        (state m.replica) (recorded (J.seen journal.new.device))) }

    // What a crash at any moment leaves of either device.
    ensures any_moment { IsWellPlaced (D.seen views.old.device) → LeavesOnly D.moment D.left_since views.old.device
        views.new.device
        (RestartLeaves D.seen D.may_leave owner views.old.device (recorded (J.seen journal.old.device))) }
    ensures any_log_moment { LogLeavesOnly J.moment J.left_since journal.old.device journal.new.device
        (RestartNotes J.seen J.may_leave owner (found owner.cluster (D.seen views.old.device)) journal.old.device) }

    // What each refusal says, and that nothing was written where no device has failed.
    ensures same { IfErr result (λ e. e ≢ error.Store ViewStoreError.DeviceFailed → D.seen views.new.device ≡
        D.seen views.old.device) }
    ensures log_same { IfErr result (λ e. IsEarly e
        → LogLeavesOnly J.moment J.left_since journal.old.device journal.new.device (ReadsAsBefore J.seen J.may_leave
        journal.old.device)) }
    ensures early_same { IfErr result (λ e. IsEarly e → J.seen journal.new.device ≡ J.seen journal.old.device) }
    ensures no_pair { IsErrOf result (NodeError.Store ViewStoreError.NoPair) → CannotRestart owner.cluster
        (D.seen views.old.device) }
    ensures foreign_cluster { IsErrOf result (NodeError.Store ViewStoreError.ForeignCluster)
        → found owner.cluster (D.seen views.old.device) ≡ foreign }
    ensures foreign_journal { IsErrOf result NodeError.ForeignJournal →
        IsForeign owner (recorded (J.seen journal.old.device)) }
    ensures stale_journal { IsErrOf result NodeError.StaleJournal
        → IsStale owner (found owner.cluster (D.seen views.old.device)) (recorded (J.seen journal.old.device)) }
    ensures device_failed { IsErrOf result (NodeError.Store ViewStoreError.DeviceFailed)
        → HasRisen (D.failure_count views.old.device) (D.failure_count views.new.device) }
    ensures log_failed { IsErrOf result (NodeError.Journal NoteError.DeviceFailed)
        → LogHasRisen (J.failure_count journal.old.device) (J.failure_count journal.new.device) }
    ensures another_version { IsErrOf result (NodeError.Journal NoteError.AnotherVersion) →
        HasAnotherVersion (recorded (J.seen journal.old.device)) }
    ensures damaged { IsErrOf result (NodeError.Journal NoteError.Damaged) →
        HasDamage (recorded (J.seen journal.old.device)) }
    ensures keeps_journal { IsErrOf result (NodeError.Store ViewStoreError.KeepsJournal) → ⊥ }
    ensures not_failed { IsErrOf result (NodeError.Store ViewStoreError.Failed) → ⊥ }
    ensures not_halted { IsErrOf result NodeError.Halted → ⊥ }
{
    let pair = views.load()?;
    if pair.restarts >= MAX_NUMBER - 1 {
        return Err(NodeError::Store(ViewStoreError::NoPair));
    }
    let (way, reader) = find_way(alloc, journal, pair, owner)?;
    let made = make_start(alloc, pair, owner, way)?;
    clear_log(alloc, journal, &reader)?;
    store_start(views, journal, &made.batch, made.pair)?;
    Ok(made)
}

/// Begins the journal of a replica that starts for the first time, normal in view 0; it is empty before.
fn begin_log<J: JournalDevice>(
    alloc: Global,
    journal: &mut Journal<J>,
    owner: Owner,
) -> Result<(), NodeError>
    ensures held { OnOk result (IsHeldIn J.seen J.may_leave (Some journal.new)) }
    ensures told { OnOk result (IsToldIn J.seen (Some journal.new) (head_of owner.cluster owner.index owner.count 1)
        (first owner.count)) }
    ensures any_moment { LeavesOnlyIn J.moment J.left_since (Some journal.old.device) (Some journal.new.device)
        (FirstLeaves J.seen J.may_leave (Some journal.old.device) (first_notes owner)) }
    ensures early { IfErr result (λ e. IsEarly e
        → LeavesOnlyIn J.moment J.left_since (Some journal.old.device) (Some journal.new.device)
        (RefusedLeaves J.seen J.may_leave (Some journal.old.device))) }
    ensures early_same { IfErr result (λ e. IsEarly e → J.seen journal.new.device ≡ J.seen journal.old.device) }
    ensures stale { IsErrOf result NodeError.StaleJournal → IsNotEmpty J.seen (Some journal.old.device) }
    ensures failed { IsErrOf result (NodeError.Journal NoteError.DeviceFailed)
        → HasRisenIn J.failure_count (Some journal.old.device) (Some journal.new.device) }
    ensures foreign { IsErrOf result NodeError.ForeignJournal → ⊥ }
    ensures version { IsErrOf result (NodeError.Journal NoteError.AnotherVersion) → ⊥ }
    ensures not_damaged { IsErrOf result (NodeError.Journal NoteError.Damaged) → ⊥ }
    ensures causes { IfErr result IsLogFault }
{
    let reader = read_first(alloc, journal)?;
    let pair = Pair {
        view: 0,
        restarts: 1,
        journaled: true,
    };
    let batch = start_notes(alloc, owner, true, pair, true)?;
    clear_log(alloc, journal, &reader)?;
    match settle(journal, &batch) {
        Ok(()) => Ok(()),
        Err(error) => Err(refusal_of_writing(error)),
    }
}

/// Begins the journal, where there is one, of a replica that starts for the first time, normal in view 0; it is empty
/// before.
pub fn begin_first<J: JournalDevice>(
    alloc: Global,
    journal: &mut Option<Journal<J>>,
    owner: Owner,
) -> Result<(), NodeError>
    ensures held { OnOk result (IsHeldIn J.seen J.may_leave journal.new) }
    ensures told { OnOk result (IsToldIn J.seen journal.new (head_of owner.cluster owner.index owner.count 1)
        (first owner.count)) }
    ensures journaled { is_some journal.new ≡ is_some journal.old }
    ensures any_moment { LeavesOnlyIn J.moment J.left_since (device_in journal.old) (device_in journal.new)
        (FirstLeaves J.seen J.may_leave (device_in journal.old) (first_notes owner)) }
    ensures early { IfErr result (λ e. IsEarly e
        → LeavesOnlyIn J.moment J.left_since (device_in journal.old) (device_in journal.new)
        (RefusedLeaves J.seen J.may_leave (device_in journal.old))) }
    ensures early_same { IfErr result (λ e. IsEarly e → IsUnwritten J.seen (device_in journal.old)
        (device_in journal.new)) }
    ensures stale { IsErrOf result NodeError.StaleJournal → IsNotEmpty J.seen (device_in journal.old) }
    ensures failed { IsErrOf result (NodeError.Journal NoteError.DeviceFailed)
        → HasRisenIn J.failure_count (device_in journal.old) (device_in journal.new) }
    ensures foreign { IsErrOf result NodeError.ForeignJournal → ⊥ }
    ensures version { IsErrOf result (NodeError.Journal NoteError.AnotherVersion) → ⊥ }
    ensures not_damaged { IsErrOf result (NodeError.Journal NoteError.Damaged) → ⊥ }
    ensures causes { IfErr result IsLogFault }
    ensures alone { (f : NoteError) → device_in journal.old ≡ None → IsErrOf result (NodeError.Journal f) → ⊥ }
{
    match journal {
        Some(journal) => begin_log(alloc, journal, owner),
        None => Ok(()),
    }
}
