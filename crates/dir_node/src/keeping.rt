//! What follows the steps of a replica: the stored pair goes along with the view, and committed records are executed.
ghost use Rattle.std.specs.Prelude.{◌≡◌, ◌⊎◌, length, IfOk, OnOk, OnErr, IsErrOf};
ghost use Rattle.state_machine.specs.Executing.{due_after};
ghost use Rattle.dir_node.specs.NodeState.{CatchesUp, CannotStore};
ghost use Rattle.dir_node.specs.private.NodeState.{Holds};
ghost use Rattle.view_store.specs.Device.{HasRisen, LeavesOnly};
ghost use Rattle.view_store.specs.Slots.{own, IsWellPlaced};
ghost use Rattle.view_store.specs.Store.{IsFormerOrNew};

use state_machine::{Executed, Op};
use std::alloc::Global;
use view_store::{Device, Pair, ViewStore, ViewStoreError};
use vr_state::replica::Replica;

/// Stores a pair where its view isn't that of the pair that is stored; all else of the two is the same. It takes no
/// memory.
pub fn keep_pair<D: Device>(
    views: &mut ViewStore<D>,
    former: u64,
    pair: Pair,
) -> Result<(), ViewStoreError>
    requires held { Holds D.seen D.may_leave views.old (record pair { view = former }) }
    ensures held { OnOk result (Holds D.seen D.may_leave views.new pair) }
    ensures cluster { views.new.cluster ≡ views.old.cluster }
    ensures placed { OnOk result (IsWellPlaced (D.seen views.old.device) → IsWellPlaced (D.seen views.new.device)) }
    ensures any_moment { IsWellPlaced (D.seen views.old.device)
        → LeavesOnly D.moment D.left_since views.old.device views.new.device
        (IsFormerOrNew views.old.cluster (own (record pair { view = former })) pair) }
    ensures stopped { IsErrOf result ViewStoreError.DeviceFailed → IsWellPlaced (D.seen views.old.device)
        → IsFormerOrNew views.old.cluster (own (record pair { view = former })) pair (D.seen views.new.device) }
    ensures device_failed { IsErrOf result ViewStoreError.DeviceFailed
        → HasRisen (D.failure_count views.old.device) (D.failure_count views.new.device) }
    ensures no_pair { IsErrOf result ViewStoreError.NoPair → CannotStore pair.view (D.seen views.old.device) }
    ensures no_pair_same { IsErrOf result ViewStoreError.NoPair → views.new ≡ views.old }
    ensures not_failed { OnErr result (IsErrOf result ViewStoreError.DeviceFailed
        ⊎ IsErrOf result ViewStoreError.NoPair) }
{
    if pair.view == former {
        return Ok(());
    }
    views.store(pair)
}

/// Executes the committed records of a replica that come next. Whether some of these are left for want of memory.
pub fn execute_due(alloc: Global, executed: &mut Executed, replica: &Replica<Op>) -> bool
    ensures executed { CatchesUp result executed.old.records
        (due_after (length executed.old.records) replica.now.commit_number replica.now.log) executed.new.records }
    ensures schema { executed.new.schema ≡ executed.old.schema }
    ensures suffix { executed.new.suffix ≡ executed.old.suffix }
    ensures indexes { executed.new.indexes ≡ executed.old.indexes }
{
    match executed.advance(alloc, replica.log.as_slice(), replica.commit_number) {
        Ok(()) => false,
        Err(_) => true,
    }
}

/// What follows the steps: the pair is stored where its view grew, then committed records are executed. Whether some of
/// these are left for want of memory.
pub fn follow<D: Device>(
    alloc: Global,
    views: &mut ViewStore<D>,
    executed: &mut Executed,
    replica: &Replica<Op>,
    former: u64,
    pair: Pair,
) -> Result<bool, ViewStoreError>
    requires held { Holds D.seen D.may_leave views.old (record pair { view = former }) }
    ensures held { OnOk result (Holds D.seen D.may_leave views.new pair) }
    ensures cluster { views.new.cluster ≡ views.old.cluster }
    ensures placed { OnOk result (IsWellPlaced (D.seen views.old.device) → IsWellPlaced (D.seen views.new.device)) }
    ensures any_moment { IsWellPlaced (D.seen views.old.device)
        → LeavesOnly D.moment D.left_since views.old.device views.new.device
        (IsFormerOrNew views.old.cluster (own (record pair { view = former })) pair) }
    ensures stopped { IsErrOf result ViewStoreError.DeviceFailed → IsWellPlaced (D.seen views.old.device)
        → IsFormerOrNew views.old.cluster (own (record pair { view = former })) pair (D.seen views.new.device) }
    ensures device_failed { IsErrOf result ViewStoreError.DeviceFailed
        → HasRisen (D.failure_count views.old.device) (D.failure_count views.new.device) }
    ensures no_pair { IsErrOf result ViewStoreError.NoPair → CannotStore pair.view (D.seen views.old.device) }
    ensures no_pair_same { IsErrOf result ViewStoreError.NoPair → views.new ≡ views.old }
    ensures not_failed { OnErr result (IsErrOf result ViewStoreError.DeviceFailed
        ⊎ IsErrOf result ViewStoreError.NoPair) }
    ensures executed { IfOk result (λ behind. CatchesUp behind executed.old.records
        (due_after (length executed.old.records) replica.now.commit_number replica.now.log) executed.new.records) }
    ensures nothing { OnErr result (executed.new ≡ executed.old) }
    ensures schema { executed.new.schema ≡ executed.old.schema }
    ensures suffix { executed.new.suffix ≡ executed.old.suffix }
    ensures indexes { executed.new.indexes ≡ executed.old.indexes }
{
    keep_pair(views, former, pair)?;
    Ok(execute_due(alloc, executed, replica))
}
