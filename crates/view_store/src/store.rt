//! The pair of a cluster's replica in two slots of 32 octets, of which one is written at a time. How a slot is spelled
//! and in which order its octets are written is decided below this file.
ghost use Rattle.std.specs.Prelude.{◌≡◌, ◌≢◌, replicate, ◌≤◌, ◌+◌, ◌^◌, ◌↔◌, ◌⊎◌, ℕ, List, length, OnOk, OnErr, IfOk, IsErrOf, IsOk, Some};
ghost use Rattle.view_store.specs.Device.{Only, HasRisen, LeavesOnly};
ghost use Rattle.view_store.specs.Store.{IsFormerOrNew};
ghost use Rattle.view_store.specs.Slots.{found, nothing, foreign, own, IsWellPlaced, taken_from, sequence_of};

use crate::cluster::Cluster;
use crate::device::Device;
use crate::fault::ViewStoreError;
use crate::reading::read_taken;
use crate::slot::{MAX_NUMBER, Pair, own_pair};
use crate::state::{Gates, State};
use crate::writing::{opened_gates, write_empty, write_pair};
use std::marker::Model;

/// The stored pair of a replica of a cluster, on a device of 64 octets.
pub struct ViewStore<D: Device> {
    device: D,
    cluster: Cluster,
    state: State,
}

// Not derived: see "What the gate takes" in docs/ARCHITECTURE.md.
impl<D: Device + Drop> Drop for ViewStore<D> {
    fn drop(self) {
        let ViewStore {
            device: _,
            cluster: _,
            state: _,
        } = self;
    }
}

impl<D: Device> Model for ViewStore<D> {
    ghost use Rattle.view_store.specs.Stored.{Stored};

    ghost Value = { Stored D };

    ghost use Rattle.view_store.specs.Status.{status_of};
    ghost use Rattle.view_store.specs.private.Store.{IsInMind};

    ghost view = { λ s. record { device = s.device; cluster = s.cluster; status = status_of s.state } };

    ghost invariant = { λ s. IsInMind s.state (D.seen s.device) (D.may_leave s.device) };
}

impl<D: Device> ViewStore<D> {
    ghost use Rattle.view_store.specs.declared.state.Status.TheVariants as status;

    /// A store of a cluster's pair over a device, which is not called. It can be used once `format` or `load` has
    /// answered Ok.
    pub fn new(device: D, cluster: Cluster) -> Self
        ensures device { result.device ≡ device }
        ensures cluster { result.cluster ≡ cluster }
        ensures status { result.status ≡ status.New }
    {
        ViewStore {
            device,
            cluster,
            state: State::New,
        }
    }

    /// The device, for a store to be made anew.
    pub fn into_device(self) -> D
        ensures { result ≡ self.device }
    {
        let ViewStore {
            device,
            cluster: _,
            state: _,
        } = self;
        device
    }

    /// Stores a pair in the place of the former one, which may be of an earlier version; the new one names the cluster.
    /// A crash at any moment of the call leaves one of the two; once it has answered Ok, the new one. After E21 every
    /// further call answers `Failed`.
    pub fn store(&mut self, pair: Pair) -> Result<(), ViewStoreError>
        ensures stored { OnOk result (found self.old.cluster (D.seen self.new.device) ≡ own pair) }

        // The slot that is taken then names the cluster and says whether there is a journal; its sequence is the next
        // one.
        ensures version { OnOk result (taken_from (D.seen self.new.device) ≡ Some (record {
          sequence = sequence_of (taken_from (D.seen self.old.device)) + 1;
          cluster = Some self.old.cluster;
          pair = pair;
        })) }
        ensures cluster { self.new.cluster ≡ self.old.cluster }
        ensures durable { OnOk result (Only (D.seen self.new.device) (D.may_leave self.new.device)) }
        ensures ready { OnOk result ((self.old.status ≡ status.Ready) × (self.new.status ≡ status.Ready)) }

        ensures placed { OnOk result (IsWellPlaced (D.seen self.old.device) → IsWellPlaced (D.seen self.new.device)) }

        // A crash at any moment of the call leaves the former pair or the new one, over an image that `format` and
        // stores left, whole or stopped.
        ensures any_moment { self.old.status ≡ status.Ready → IsWellPlaced (D.seen self.old.device)
            → LeavesOnly D.moment D.left_since self.old.device self.new.device
            (IsFormerOrNew self.old.cluster (found self.old.cluster (D.seen self.old.device)) pair) }

        // So does a stop without a crash: after E21 the device gives the former pair or the new one, as `format` and
        // stores leave it, to the store that is made over it anew.
        ensures stopped { IsErrOf result ViewStoreError.DeviceFailed → IsWellPlaced (D.seen self.old.device)
            → IsFormerOrNew self.old.cluster (found self.old.cluster (D.seen self.old.device)) pair
            (D.seen self.new.device) }

        // E21 only where the device failed, and then the store has failed; before that it was ready.
        ensures device_failed { IsErrOf result ViewStoreError.DeviceFailed →
            HasRisen (D.failure_count self.old.device) (D.failure_count self.new.device)
            × (self.old.status ≡ status.Ready) × (self.new.status ≡ status.Failed) }

        // E22 exactly where the store isn't ready yet, or a number is past the greatest; nothing is written.
        ensures no_pair { IsErrOf result ViewStoreError.NoPair ↔ (self.old.status ≡ status.New)
            ⊎ ((self.old.status ≡ status.Ready)
            × ((2 ^ 63 ≤ pair.view) ⊎ (2 ^ 63 ≤ pair.restarts)
            ⊎ (2 ^ 63 ≤ sequence_of (taken_from (D.seen self.old.device)) + 1))) }
        ensures no_pair_same { IsErrOf result ViewStoreError.NoPair → self.new ≡ self.old }

        // Never E23: where another cluster's pair is found, the store isn't ready. Nor E25: what is stored is the
        // caller's to say.
        ensures foreign_cluster { IsErrOf result ViewStoreError.ForeignCluster → ⊥ }
        ensures keeps_journal { IsErrOf result ViewStoreError.KeepsJournal → ⊥ }

        // A store that has failed answers so, and calls no device.
        ensures failed { IsErrOf result ViewStoreError.Failed ↔ (self.old.status ≡ status.Failed) }
        ensures failed_same { IsErrOf result ViewStoreError.Failed → self.new ≡ self.old }
    {
        let (sequence, gates) = match self.state {
            State::New => return Err(ViewStoreError::NoPair),
            State::Failed => return Err(ViewStoreError::Failed),
            State::Ready(sequence, gates) => (sequence, gates),
        };
        if pair.view > MAX_NUMBER || pair.restarts > MAX_NUMBER || sequence >= MAX_NUMBER {
            return Err(ViewStoreError::NoPair);
        }
        match write_pair(&mut self.device, sequence, gates, self.cluster, pair) {
            Ok(()) => {
                self.state = State::Ready(sequence + 1, opened_gates(sequence, gates));
                Ok(())
            }
            Err(_) => {
                self.state = State::Failed;
                Err(ViewStoreError::DeviceFailed)
            }
        }
    }

    /// The pair that the device holds for the cluster: of the first version, or one that names it. A crash after it
    /// leaves that pair.
    pub fn load(&mut self) -> Result<Pair, ViewStoreError>
        ensures found { IfOk result (λ pair. found self.old.cluster (D.seen self.old.device) ≡ own pair) }
        ensures durable { OnOk result (Only (D.seen self.old.device) (D.may_leave self.new.device)) }
        ensures ready { OnOk result (self.new.status ≡ status.Ready) }
        ensures seen { D.seen self.new.device ≡ D.seen self.old.device }
        ensures cluster { self.new.cluster ≡ self.old.cluster }

        // It writes nothing: a crash at any moment of the call leaves what it might have left before.
        ensures any_moment { self.old.status ≢ status.Failed
            → LeavesOnly D.moment D.left_since self.old.device self.new.device (D.may_leave self.old.device) }

        // E22 exactly where no pair is found; the store isn't ready then.
        ensures no_pair { IsErrOf result ViewStoreError.NoPair
            → (found self.old.cluster (D.seen self.old.device) ≡ nothing) × (self.new.status ≡ status.New) }

        // E23 exactly where another cluster's pair is found; the store isn't ready then.
        ensures foreign_cluster { IsErrOf result ViewStoreError.ForeignCluster
            → (found self.old.cluster (D.seen self.old.device) ≡ foreign) × (self.new.status ≡ status.New) }

        // Never E25: what goes with a pair is told by the pair.
        ensures keeps_journal { IsErrOf result ViewStoreError.KeepsJournal → ⊥ }

        // E21 only where the device failed, and then the store has failed.
        ensures device_failed { IsErrOf result ViewStoreError.DeviceFailed
            → HasRisen (D.failure_count self.old.device) (D.failure_count self.new.device)
            × (self.new.status ≡ status.Failed) }
        ensures counted { D.failure_count self.old.device ≤ D.failure_count self.new.device }

        // A store that has failed answers so, and calls no device.
        ensures failed { IsErrOf result ViewStoreError.Failed ↔ (self.old.status ≡ status.Failed) }
        ensures failed_same { IsErrOf result ViewStoreError.Failed → self.new ≡ self.old }
    {
        if let State::Failed = self.state {
            return Err(ViewStoreError::Failed);
        }
        let taken = match read_taken(&mut self.device) {
            Ok(taken) => taken,
            Err(_) => {
                self.state = State::Failed;
                return Err(ViewStoreError::DeviceFailed);
            }
        };
        match taken {
            Some((slot, gates)) => match own_pair(slot, self.cluster) {
                Ok(pair) => {
                    self.state = State::Ready(slot.sequence, gates);
                    Ok(pair)
                }
                Err(fault) => {
                    self.state = State::New;
                    Err(fault)
                }
            },
            None => {
                self.state = State::New;
                Err(ViewStoreError::NoPair)
            }
        }
    }

    /// Makes the device hold no pair: 64 zeros. A stop inside it promises nothing.
    pub fn format(&mut self) -> Result<(), ViewStoreError>
        ensures empty { OnOk result (D.seen self.new.device ≡ replicate 64 0) }
        ensures placed { OnOk result (IsWellPlaced (D.seen self.new.device)) }
        ensures no_pair_found { OnOk result (found self.old.cluster (D.seen self.new.device) ≡ nothing) }
        ensures durable { OnOk result (Only (D.seen self.new.device) (D.may_leave self.new.device)) }
        ensures ready { OnOk result (self.new.status ≡ status.Ready) }
        ensures cluster { self.new.cluster ≡ self.old.cluster }

        // E22 exactly where the device is longer than 64 octets; nothing is written.
        ensures no_pair { IsErrOf result ViewStoreError.NoPair → (65 ≤ length (D.seen self.old.device))
            × (D.seen self.new.device ≡ D.seen self.old.device) × (self.new.status ≡ status.New) }

        // Never E23, nor E25: whosever pair the device holds, it is written over.
        ensures foreign_cluster { IsErrOf result ViewStoreError.ForeignCluster → ⊥ }
        ensures keeps_journal { IsErrOf result ViewStoreError.KeepsJournal → ⊥ }

        // E21 only where the device failed, and then the store has failed.
        ensures device_failed { IsErrOf result ViewStoreError.DeviceFailed
            → HasRisen (D.failure_count self.old.device) (D.failure_count self.new.device)
            × (self.new.status ≡ status.Failed) }
        ensures counted { D.failure_count self.old.device ≤ D.failure_count self.new.device }

        // A store that has failed answers so, and calls no device.
        ensures failed { IsErrOf result ViewStoreError.Failed ↔ (self.old.status ≡ status.Failed) }
        ensures failed_same { IsErrOf result ViewStoreError.Failed → self.new ≡ self.old }
    {
        if let State::Failed = self.state {
            return Err(ViewStoreError::Failed);
        }
        match write_empty(&mut self.device) {
            Ok(true) => {
                let gates = Gates {
                    first: false,
                    second: false,
                };
                self.state = State::Ready(0, gates);
                Ok(())
            }
            Ok(false) => {
                self.state = State::New;
                Err(ViewStoreError::NoPair)
            }
            Err(_) => {
                self.state = State::Failed;
                Err(ViewStoreError::DeviceFailed)
            }
        }
    }
}
