//! A node without a journal at its start: the device's pair and the replica that goes with it. What is asked of the
//! other replicas is decided below.
ghost use Rattle.std.specs.Prelude.{◌≡◌, ◌≢◌, ◌<◌, ◌≤◌, false, length, IfOk, OnOk, IsErrOf};
ghost use Rattle.dir_node.specs.NodeState.{CannotStart, IsJournaled, IsOwn, StartLeaves, started_pair};
ghost use Rattle.dir_node.specs.private.NodeState.{Holds};
ghost use Rattle.view_store.specs.Device.{HasRisen, LeavesOnly};
ghost use Rattle.view_store.specs.Slots.{found, foreign, IsWellPlaced};
ghost use Rattle.view_store.specs.declared.state.Status.TheVariants as status;
ghost use Rattle.log_journal.specs.vr_recover.Rules.{recovers};
ghost use Rattle.vr_state.specs.Views.{outcome};

use crate::error::NodeError;
use log_journal::{NoteError, recover};
use state_machine::Op;
use std::alloc::Global;
use view_store::{Device, MAX_NUMBER, Pair, ViewStore, ViewStoreError};
use vr_state::message::Outputs;
use vr_state::replica::Replica;

/// Makes a device hold the pair of a replica's first start: view 0, one restart, and whether a journal goes with it. A
/// stop inside it promises nothing.
pub fn start_store<D: Device>(
    views: &mut ViewStore<D>,
    journaled: bool,
) -> Result<(), ViewStoreError>
    requires new { views.old.status ≢ status.Failed }
    ensures held { OnOk result (Holds D.seen D.may_leave views.new
        (record { view = 0; restarts = 1; journaled = journaled })) }
    ensures cluster { OnOk result (views.new.cluster ≡ views.old.cluster) }
    ensures placed { OnOk result (IsWellPlaced (D.seen views.new.device)) }
    ensures no_pair { IsErrOf result ViewStoreError.NoPair → 65 ≤ length (D.seen views.old.device) }
    ensures no_pair_same { IsErrOf result ViewStoreError.NoPair → D.seen views.new.device ≡ D.seen views.old.device }
    ensures device_failed { IsErrOf result ViewStoreError.DeviceFailed
        → HasRisen (D.failure_count views.old.device) (D.failure_count views.new.device) }
    ensures foreign_cluster { IsErrOf result ViewStoreError.ForeignCluster → ⊥ }
    ensures keeps_journal { IsErrOf result ViewStoreError.KeepsJournal → ⊥ }
    ensures not_failed { IsErrOf result ViewStoreError.Failed → ⊥ }
{
    views.format()?;
    views.store(Pair {
        view: 0,
        restarts: 1,
        journaled,
    })
}

/// The replica of a device's pair, with what it asks first; the device then holds the same view, and one restart more.
/// That number is the recovery's nonce: it is stored before it is handed out, so none is used twice. What takes memory
/// comes before anything is written.
pub fn start_again<D: Device>(
    alloc: Global,
    views: &mut ViewStore<D>,
    index: u64,
    count: u64,
) -> Result<(Replica<Op>, Outputs<Op>, u64), NodeError>
    requires within { index < count }
    requires new { views.old.status ≢ status.Failed }
    ensures own { OnOk result (IsOwn (found views.old.cluster (D.seen views.old.device))) }
    ensures started { let pair = started_pair (found views.old.cluster (D.seen views.old.device)) in
        IfOk result (λ s. outcome s.0 s.1 ≡ recovers count index pair.view pair.restarts) }
    ensures restarts { IfOk result
        (λ s. s.2 ≡ (started_pair (found views.old.cluster (D.seen views.old.device))).restarts) }
    ensures index { IfOk result (λ s. s.0.index ≡ index) }
    ensures count { IfOk result (λ s. s.0.count ≡ count) }
    ensures held { IfOk result (λ s. Holds D.seen D.may_leave views.new
        (record { view = s.0.view_number; restarts = s.2; journaled = false })) }
    ensures cluster { OnOk result (views.new.cluster ≡ views.old.cluster) }
    ensures placed { OnOk result (IsWellPlaced (D.seen views.old.device) → IsWellPlaced (D.seen views.new.device)) }

    // A crash at any moment leaves what the device might have left before, or one of the two pairs.
    ensures any_moment { IsWellPlaced (D.seen views.old.device) → LeavesOnly D.moment D.left_since views.old.device
        views.new.device
        (StartLeaves D.seen D.may_leave views.old.cluster views.old.device) }

    // What each refusal says, and that nothing was written where no device has failed.
    ensures no_memory { IsErrOf result NodeError.NoMemory → D.seen views.new.device ≡ D.seen views.old.device }
    ensures no_pair { IsErrOf result (NodeError.Store ViewStoreError.NoPair) → CannotStart views.old.cluster
        (D.seen views.old.device) }
    ensures no_pair_same { IsErrOf result (NodeError.Store ViewStoreError.NoPair) → D.seen views.new.device ≡
        D.seen views.old.device }
    ensures foreign_cluster { IsErrOf result (NodeError.Store ViewStoreError.ForeignCluster)
        → found views.old.cluster (D.seen views.old.device) ≡ foreign }
    ensures foreign_same { IsErrOf result (NodeError.Store ViewStoreError.ForeignCluster) → D.seen views.new.device ≡
        D.seen views.old.device }
    ensures keeps_journal { IsErrOf result (NodeError.Store ViewStoreError.KeepsJournal)
        → IsJournaled (found views.old.cluster (D.seen views.old.device)) }
    ensures keeps_same { IsErrOf result (NodeError.Store ViewStoreError.KeepsJournal) → D.seen views.new.device ≡
        D.seen views.old.device }
    ensures device_failed { IsErrOf result (NodeError.Store ViewStoreError.DeviceFailed)
        → HasRisen (D.failure_count views.old.device) (D.failure_count views.new.device) }
    ensures not_failed { IsErrOf result (NodeError.Store ViewStoreError.Failed) → ⊥ }
    ensures not_halted { IsErrOf result NodeError.Halted → ⊥ }
    ensures no_journal { (f : NoteError) → IsErrOf result (NodeError.Journal f) → ⊥ }
    ensures foreign_journal { IsErrOf result NodeError.ForeignJournal → ⊥ }
    ensures stale_journal { IsErrOf result NodeError.StaleJournal → ⊥ }
{
    let held = views.load()?;
    let pair = held.alone()?;
    if pair.restarts >= MAX_NUMBER {
        return Err(NodeError::Store(ViewStoreError::NoPair));
    }
    let restarts = pair.restarts + 1;
    let (replica, outputs) = recover(alloc, index, count, pair.view, restarts)?;
    let next = Pair {
        view: pair.view,
        restarts,
        journaled: false,
    };
    views.store(next)?;
    Ok((replica, outputs, restarts))
}
