//! Nodes at their start, without a journal or with one. What is stored and noted is decided below.
ghost use Rattle.std.specs.Prelude.{◌≡◌, ◌≢◌, ◌<◌, ◌≤◌, ℕ, List, true, Some, None, is_some, length, IfOk, OnOk, IfErr, IsErrOf};
ghost use Rattle.dir_node.specs.Faults.{IsEarly};
ghost use Rattle.dir_node.specs.private.Faults.{IsLogFault, IsPairFault};
ghost use Rattle.dir_node.specs.Logged.{FirstLeaves, HasRisenIn, IsNotEmpty, IsUnwritten, LeavesOnlyIn, RefusedLeaves, device_in, head_of};
ghost use Rattle.dir_node.specs.private.Logged.{IsHeldIn, IsToldIn};
ghost use Rattle.dir_node.specs.NodeState.{CannotStart, IsJournaled, IsMade, IsOwn, KeepsLog, KeepsPair, StartLeaves, given, started_pair};
ghost use Rattle.dir_node.specs.Restarting.{CannotRestart, IsForeign, IsRestarted, IsStale, RestartLeaves, RestartNotes, owner_of, first_notes};
ghost use Rattle.dir_node.specs.declared.error.NodeError.TheVariants as error;
ghost use Rattle.log_journal.specs.Found.{HasAnotherVersion};
ghost use Rattle.log_journal.specs.Refused.{HasDamage};
ghost use Rattle.log_journal.specs.declared.error.NoteError.TheVariants as note_error;
ghost use Rattle.log_journal.specs.journal.Frames.{recorded};
ghost use Rattle.view_store.specs.Device.{HasRisen, LeavesOnly};
ghost use Rattle.view_store.specs.Slots.{found, foreign, IsWellPlaced};
ghost use Rattle.view_store.specs.declared.fault.ViewStoreError.TheVariants as view_error;
ghost use Rattle.log_journal.specs.vr_recover.Rules.{recovers};
ghost use Rattle.vr_state.specs.Outcome.{idle};
ghost use Rattle.vr_state.specs.State.{first, recovering};
ghost use Rattle.vr_state.specs.Views.{state};

use crate::config::{NodeConfig, Refused};
use crate::error::NodeError;
use crate::made::Made;
use crate::node::{Node, device_of};
use crate::owner::Owner;
use crate::restarting::{begin_first, start_over};
use crate::starting::{start_again, start_store};
use log_journal::{Device as JournalDevice, Journal, NoteError};
use state_machine::{Executed, Op, Store};
use std::alloc::Global;
use view_store::{Device, ViewStore};
use vr_state::message::Outputs;
use vr_state::replica::Replica;
use vr_state::sending::sending;

/// A journal over a device that wasn't read yet.
fn unread<J: JournalDevice>(device: Option<J>) -> Option<Journal<J>>
    ensures { device_in result ≡ device }
{
    match device {
        Some(device) => Some(Journal { device, end: 0 }),
        None => None,
    }
}

/// The replica of a first start, whose journal, where there is one, is begun.
fn first_replica<J: JournalDevice>(
    alloc: Global,
    journal: &mut Option<Journal<J>>,
    owner: Owner,
) -> Result<Replica<Op>, NodeError>
    requires { owner.index < owner.count }
    ensures state { IfOk result (λ r. state r ≡ first owner.count) }
    ensures index { IfOk result (λ r. r.index ≡ owner.index) }
    ensures count { IfOk result (λ r. r.count ≡ owner.count) }
    ensures held { OnOk result (IsHeldIn J.seen J.may_leave journal.new) }
    ensures told { OnOk result (IsToldIn J.seen journal.new (head_of owner.cluster owner.index owner.count 1)
        (first owner.count)) }
    ensures journaled { is_some journal.new ≡ is_some journal.old }
    ensures any_moment { LeavesOnlyIn J.moment J.left_since (device_in journal.old) (device_in journal.new)
        (FirstLeaves J.seen J.may_leave (device_in journal.old) (first_notes owner)) }
    ensures early { IfErr result (λ e. IsEarly e
        → LeavesOnlyIn J.moment J.left_since (device_in journal.old) (device_in journal.new)
        (RefusedLeaves J.seen J.may_leave (device_in journal.old))) }
    ensures early_same { IfErr result (λ e. IsEarly e → IsUnwritten J.seen (device_in journal.old)
        (device_in journal.new)) }
    ensures stale { IsErrOf result NodeError.StaleJournal → IsNotEmpty J.seen (device_in journal.old) }
    ensures failed { IsErrOf result (NodeError.Journal NoteError.DeviceFailed)
        → HasRisenIn J.failure_count (device_in journal.old) (device_in journal.new) }
    ensures foreign { IsErrOf result NodeError.ForeignJournal → ⊥ }
    ensures version { IsErrOf result (NodeError.Journal NoteError.AnotherVersion) → ⊥ }
    ensures not_damaged { IsErrOf result (NodeError.Journal NoteError.Damaged) → ⊥ }
    ensures causes { IfErr result IsLogFault }
    ensures alone { (f : NoteError) → device_in journal.old ≡ None → IsErrOf result (NodeError.Journal f) → ⊥ }
{
    let replica = Replica::first(alloc, owner.index, owner.count)?;
    begin_first(alloc, journal, owner)?;
    Ok(replica)
}

/// The node of a later start without a journal: it recovers in its stored view.
fn reopen_alone<D: Device, J: JournalDevice>(
    alloc: Global,
    device: D,
    config: NodeConfig,
) -> Result<(Node<D, J>, Outputs<Op>), Refused<D, J>>
    requires within { config.index < config.count }
    ensures own { OnOk result (IsOwn (found config.cluster (D.seen device))) }
    ensures made { let pair = started_pair (found config.cluster (D.seen device)) in
        IfOk result (λ made. IsMade config (recovering config.count pair.view pair.restarts) pair.restarts made.0) }
    ensures outputs { let pair = started_pair (found config.cluster (D.seen device)) in
        IfOk result (λ made. given made.0.replica made.1 ≡ recovers config.count config.index pair.view pair.restarts) }
    ensures caught_up { IfOk result (λ made. made.0.catch_up ≡ 0) }
    ensures alone { IfOk result (λ made. made.0.journal ≡ None) }
    ensures given_back { IfErr result (λ r. r.journal ≡ None) }
    ensures kept { IfOk result (λ made. KeepsPair D.may_leave made.0) }
    ensures placed { IfOk result (λ made. IsWellPlaced (D.seen device) → IsWellPlaced (D.seen made.0.device)) }
    ensures any_moment { IfOk result (λ made. IsWellPlaced (D.seen device)
        → LeavesOnly D.moment D.left_since device made.0.device (StartLeaves D.seen D.may_leave config.cluster
        device)) }
    ensures refused_moment { IfErr result (λ r. IsWellPlaced (D.seen device)
        → LeavesOnly D.moment D.left_since device r.device (StartLeaves D.seen D.may_leave config.cluster device)) }
    ensures no_pair { IfErr result (λ r. r.error ≡ error.Store view_error.NoPair → CannotStart config.cluster
        (D.seen device)) }
    ensures foreign_cluster { IfErr result (λ r. r.error ≡ error.Store view_error.ForeignCluster →
        found config.cluster (D.seen device) ≡ foreign) }
    ensures keeps_journal { IfErr result (λ r. r.error ≡ error.Store view_error.KeepsJournal →
        IsJournaled (found config.cluster (D.seen device))) }
    ensures device_failed { IfErr result (λ r. r.error ≡ error.Store view_error.DeviceFailed
        → HasRisen (D.failure_count device) (D.failure_count r.device)) }
    ensures same { IfErr result (λ r. r.error ≢ error.Store view_error.DeviceFailed → D.seen r.device ≡ D.seen device) }
    ensures causes { IfErr result (λ r. IsPairFault r.error) }
{
    let NodeConfig {
        schema,
        indexes,
        suffix,
        cluster,
        index,
        count,
    } = config;
    let mut views = ViewStore::new(device, cluster);
    match start_again(alloc, &mut views, index, count) {
        Ok((replica, outputs, restarts)) => {
            let executed = Executed::new(alloc, Store::new(alloc, schema, indexes, suffix));
            let node = Node::assembled(replica, executed, views, None, restarts, 0);
            Ok((node, outputs))
        }
        Err(error) => Err(Refused {
            error,
            device: views.into_device(),
            journal: None,
        }),
    }
}

/// The node of a later start with a journal: it goes on as that tells it, or it recovers and begins it anew.
fn reopen_over<D: Device, J: JournalDevice>(
    alloc: Global,
    device: D,
    journal: J,
    config: NodeConfig,
) -> Result<(Node<D, J>, Outputs<Op>), Refused<D, J>>
    requires within { config.index < config.count }
    ensures restarted { IfOk result (λ made. IsRestarted config (found config.cluster (D.seen device))
        (recorded (J.seen journal)) made.0 made.1) }
    ensures journaled { IfOk result (λ made. is_some made.0.journal ≡ true) }
    ensures kept { IfOk result (λ made. KeepsPair D.may_leave made.0) }
    ensures placed { IfOk result (λ made. IsWellPlaced (D.seen device) → IsWellPlaced (D.seen made.0.device)) }
    ensures logged { IfOk result (λ made. KeepsLog J.may_leave made.0) }
    ensures any_moment { IfOk result (λ made. IsWellPlaced (D.seen device)
        → LeavesOnly D.moment D.left_since device made.0.device (RestartLeaves D.seen D.may_leave (owner_of config)
        device (recorded (J.seen journal)))) }
    ensures refused_moment { IfErr result (λ r. IsWellPlaced (D.seen device)
        → LeavesOnly D.moment D.left_since device r.device (RestartLeaves D.seen D.may_leave (owner_of config) device
        (recorded (J.seen journal)))) }
    ensures log_moment { IfOk result (λ made. LeavesOnlyIn J.moment J.left_since (Some journal)
        (device_in made.0.journal)
        (RestartNotes J.seen J.may_leave (owner_of config) (found config.cluster (D.seen device)) journal)) }
    ensures refused_log_moment { IfErr result (λ r. LeavesOnlyIn J.moment J.left_since (Some journal) r.journal
        (RestartNotes J.seen J.may_leave (owner_of config) (found config.cluster (D.seen device)) journal)) }
    ensures early { IfErr result (λ r. IsEarly r.error
        → LeavesOnlyIn J.moment J.left_since (Some journal) r.journal (RefusedLeaves J.seen J.may_leave
        (Some journal))) }
    ensures early_same { IfErr result (λ r. IsEarly r.error → IsUnwritten J.seen (Some journal) r.journal) }
    ensures no_pair { IfErr result (λ r. r.error ≡ error.Store view_error.NoPair → CannotRestart config.cluster
        (D.seen device)) }
    ensures foreign_cluster { IfErr result (λ r. r.error ≡ error.Store view_error.ForeignCluster →
        found config.cluster (D.seen device) ≡ foreign) }
    ensures keeps_journal { IfErr result (λ r. r.error ≢ error.Store view_error.KeepsJournal) }
    ensures device_failed { IfErr result (λ r. r.error ≡ error.Store view_error.DeviceFailed
        → HasRisen (D.failure_count device) (D.failure_count r.device)) }
    ensures not_failed { IfErr result (λ r. r.error ≢ error.Store view_error.Failed) }
    ensures not_halted { IfErr result (λ r. r.error ≢ error.Halted) }
    ensures foreign_journal { IfErr result (λ r. r.error ≡ error.ForeignJournal → IsForeign (owner_of config)
        (recorded (J.seen journal))) }
    ensures stale_journal { IfErr result (λ r. r.error ≡ error.StaleJournal
        → IsStale (owner_of config) (found config.cluster (D.seen device)) (recorded (J.seen journal))) }
    ensures another_version { IfErr result (λ r. r.error ≡ error.Journal note_error.AnotherVersion →
        HasAnotherVersion (recorded (J.seen journal))) }
    ensures damaged { IfErr result (λ r. r.error ≡ error.Journal note_error.Damaged →
        HasDamage (recorded (J.seen journal))) }
    ensures log_failed { IfErr result (λ r. r.error ≡ error.Journal note_error.DeviceFailed →
        HasRisenIn J.failure_count (Some journal) r.journal) }
    ensures same { IfErr result (λ r. r.error ≢ error.Store view_error.DeviceFailed → D.seen r.device ≡ D.seen device) }
{
    let NodeConfig {
        schema,
        indexes,
        suffix,
        cluster,
        index,
        count,
    } = config;
    let owner = Owner {
        cluster: cluster.number(),
        index,
        count,
    };
    let mut views = ViewStore::new(device, cluster);
    let mut journal = Journal {
        device: journal,
        end: 0,
    };
    match start_over(alloc, &mut views, &mut journal, owner) {
        Ok(made) => {
            let Made {
                replica,
                outputs,
                pair,
                catch_up,
                batch: _,
            } = made;
            let executed = Executed::new(alloc, Store::new(alloc, schema, indexes, suffix));
            let node = Node::assembled(
                replica,
                executed,
                views,
                Some(journal),
                pair.restarts,
                catch_up,
            );
            Ok((node, outputs))
        }
        Err(error) => Err(Refused {
            error,
            device: views.into_device(),
            journal: device_of(Some(journal)),
        }),
    }
}

impl<D: Device, J: JournalDevice> Node<D, J> {
    /// The node of a replica's first start, once in its life: its device holds view 0 and one restart, its journal,
    /// where it keeps one, tells that, and it is normal in view 0. What takes memory comes first: a start that is
    /// refused memory has written nothing, and doesn't call the pair's device.
    pub fn fresh(
        alloc: Global,
        device: D,
        journal: Option<J>,
        config: NodeConfig,
    ) -> Result<(Node<D, J>, Outputs<Op>), Refused<D, J>>
        requires within { config.index < config.count }
        ensures made { IfOk result (λ made. IsMade config (first config.count) 1 made.0) }
        ensures outputs { IfOk result (λ made. given made.0.replica made.1 ≡ idle (first config.count)) }
        ensures journaled { IfOk result (λ made. is_some made.0.journal ≡ is_some journal) }
        ensures caught_up { IfOk result (λ made. made.0.catch_up ≡ 0) }

        // Every crash from then on leaves view 0 and one restart, as stores leave them. A stop inside the call promises
        // nothing of the pair.
        ensures kept { IfOk result (λ made. KeepsPair D.may_leave made.0) }
        ensures placed { IfOk result (λ made. IsWellPlaced (D.seen made.0.device)) }
        ensures left { IfOk result (λ made. (c : List ℕ) → D.may_leave made.0.device c → IsWellPlaced c) }

        // So does every crash leave a journal that tells the node; at any moment of the call, one that is read as
        // before, or as some first of what the start notes.
        ensures logged { IfOk result (λ made. KeepsLog J.may_leave made.0) }
        ensures log_moment { IfOk result (λ made. LeavesOnlyIn J.moment J.left_since journal (device_in made.0.journal)
            (FirstLeaves J.seen J.may_leave journal (first_notes (owner_of config)))) }
        ensures refused_log_moment { IfErr result (λ r. LeavesOnlyIn J.moment J.left_since journal r.journal
            (FirstLeaves J.seen J.may_leave journal (first_notes (owner_of config)))) }
        ensures early { IfErr result (λ r. IsEarly r.error
            → LeavesOnlyIn J.moment J.left_since journal r.journal (RefusedLeaves J.seen J.may_leave journal)) }
        // Nothing is written, cleared or grown before every other check of the start has passed.
        ensures early_same { IfErr result (λ r. IsEarly r.error → IsUnwritten J.seen journal r.journal) }

        // Want of memory comes before the pair's device is called, E22 where it is longer than 64 octets, E21 where it
        // failed; E26 where the journal isn't empty, another error of the journal where it is read or written; nothing
        // else.
        ensures no_memory { IfErr result (λ r. r.error ≡ error.NoMemory → r.device ≡ device) }
        ensures no_pair { IfErr result (λ r. r.error ≡ error.Store view_error.NoPair → 65 ≤ length (D.seen device)) }
        ensures no_pair_same { IfErr result (λ r. r.error ≡ error.Store view_error.NoPair → D.seen r.device ≡
            D.seen device) }
        ensures device_failed { IfErr result (λ r. r.error ≡ error.Store view_error.DeviceFailed
            → HasRisen (D.failure_count device) (D.failure_count r.device)) }
        ensures foreign_cluster { IfErr result (λ r. r.error ≢ error.Store view_error.ForeignCluster) }
        ensures keeps_journal { IfErr result (λ r. r.error ≢ error.Store view_error.KeepsJournal) }
        ensures not_failed { IfErr result (λ r. r.error ≢ error.Store view_error.Failed) }
        ensures not_halted { IfErr result (λ r. r.error ≢ error.Halted) }
        ensures stale_journal { IfErr result (λ r. r.error ≡ error.StaleJournal → IsNotEmpty J.seen journal
            × (r.device ≡ device)) }
        ensures foreign_journal { IfErr result (λ r. r.error ≢ error.ForeignJournal) }
        ensures another_version { IfErr result (λ r. r.error ≢ error.Journal note_error.AnotherVersion) }
        ensures not_damaged { IfErr result (λ r. r.error ≢ error.Journal note_error.Damaged) }
        ensures log_failed { IfErr result (λ r. r.error ≡ error.Journal note_error.DeviceFailed
            → HasRisenIn J.failure_count journal r.journal × (r.device ≡ device)) }
        ensures no_journal { (f : NoteError) → journal ≡ None → IfErr result (λ r. r.error ≢ error.Journal f) }
    {
        let NodeConfig {
            schema,
            indexes,
            suffix,
            cluster,
            index,
            count,
        } = config;
        let owner = Owner {
            cluster: cluster.number(),
            index,
            count,
        };
        let mut journal = unread(journal);
        let replica = match first_replica(alloc, &mut journal, owner) {
            Ok(replica) => replica,
            Err(error) => {
                return Err(Refused {
                    error,
                    device,
                    journal: device_of(journal),
                });
            }
        };
        let executed = Executed::new(alloc, Store::new(alloc, schema, indexes, suffix));
        let mut views = ViewStore::new(device, cluster);
        match start_store(&mut views, journal.is_some()) {
            Ok(()) => {
                let node = Node::assembled(replica, executed, views, journal, 1, 0);
                Ok((node, sending(alloc, Vec::new(alloc))))
            }
            Err(error) => Err(Refused {
                error: NodeError::Store(error),
                device: views.into_device(),
                journal: device_of(journal),
            }),
        }
    }

    /// The node of a later start. Without a journal it recovers in its stored view, with the number of this start as
    /// its nonce, which its device holds before anything is given out. With one it goes on as the journal tells it, or,
    /// where it can't, it recovers and begins the journal anew; the journal and then the pair are stored before
    /// anything is given out.
    pub fn reopen(
        alloc: Global,
        device: D,
        journal: Option<J>,
        config: NodeConfig,
    ) -> Result<(Node<D, J>, Outputs<Op>), Refused<D, J>>
        requires within { config.index < config.count }

        // Without a journal a pair of the cluster's own is found, that no journal goes with; the replica is one after
        // its recover event, in that view, with one restart more as its nonce.
        ensures own { journal ≡ None → OnOk result (IsOwn (found config.cluster (D.seen device))) }
        ensures made { journal ≡ None → let pair = started_pair (found config.cluster (D.seen device)) in
            IfOk result (λ made. IsMade config (recovering config.count pair.view pair.restarts) pair.restarts made.0) }
        ensures outputs { journal ≡ None → let pair = started_pair (found config.cluster (D.seen device)) in
            IfOk result (λ made. given made.0.replica made.1 ≡ recovers config.count config.index pair.view
            pair.restarts) }
        ensures caught_up { journal ≡ None → IfOk result (λ made. made.0.catch_up ≡ 0) }

        // With one the replica recovers, or it goes on as the journal tells it.
        ensures restarted { (j : J) → journal ≡ Some j
            → IfOk result (λ made. IsRestarted config (found config.cluster (D.seen device)) (recorded (J.seen j))
            made.0 made.1) }
        ensures journaled { IfOk result (λ made. is_some made.0.journal ≡ is_some journal) }

        // Every crash from then on leaves that pair, and a journal that tells the node.
        ensures kept { IfOk result (λ made. KeepsPair D.may_leave made.0) }
        ensures placed { IfOk result (λ made. IsWellPlaced (D.seen device) → IsWellPlaced (D.seen made.0.device)) }
        ensures logged { IfOk result (λ made. KeepsLog J.may_leave made.0) }

        // A crash at any moment of the call leaves what the device might have left before, or the former pair or the
        // new one.
        ensures any_moment { journal ≡ None → IfOk result (λ made. IsWellPlaced (D.seen device)
            → LeavesOnly D.moment D.left_since device made.0.device (StartLeaves D.seen D.may_leave config.cluster
            device)) }
        ensures refused_moment { journal ≡ None → IfErr result (λ r. IsWellPlaced (D.seen device)
            → LeavesOnly D.moment D.left_since device r.device (StartLeaves D.seen D.may_leave config.cluster device)) }
        ensures any_moment_over { (j : J) → journal ≡ Some j → IfOk result (λ made. IsWellPlaced (D.seen device)
            → LeavesOnly D.moment D.left_since device made.0.device (RestartLeaves D.seen D.may_leave
            (owner_of config) device (recorded (J.seen j)))) }
        ensures refused_moment_over { (j : J) → journal ≡ Some j → IfErr result (λ r. IsWellPlaced (D.seen device)
            → LeavesOnly D.moment D.left_since device r.device (RestartLeaves D.seen D.may_leave (owner_of config)
            device (recorded (J.seen j)))) }

        // And a journal that is read as before, or as that and some first of what the start notes.
        ensures log_moment { (j : J) → journal ≡ Some j → IfOk result (λ made. LeavesOnlyIn J.moment J.left_since
            journal (device_in made.0.journal)
            (RestartNotes J.seen J.may_leave (owner_of config) (found config.cluster (D.seen device)) j)) }
        ensures refused_log_moment { (j : J) → journal ≡ Some j →
            IfErr result (λ r. LeavesOnlyIn J.moment J.left_since journal r.journal
            (RestartNotes J.seen J.may_leave (owner_of config) (found config.cluster (D.seen device)) j)) }
        ensures early { IfErr result (λ r. IsEarly r.error
            → LeavesOnlyIn J.moment J.left_since journal r.journal (RefusedLeaves J.seen J.may_leave journal)) }
        // Nothing is written, cleared or grown before every other check of the start has passed.
        ensures early_same { IfErr result (λ r. IsEarly r.error → IsUnwritten J.seen journal r.journal) }

        // Want of memory writes nothing; nor do E22, where the pair has no next start, E23, where another cluster's
        // pair is found, and E25, where a journal goes with the pair and none is given. E21 comes only where a device
        // failed.
        ensures no_memory { IfErr result (λ r. r.error ≡ error.NoMemory → D.seen r.device ≡ D.seen device) }
        ensures no_pair { journal ≡ None → IfErr result (λ r. r.error ≡ error.Store view_error.NoPair →
            CannotStart config.cluster (D.seen device)) }
        ensures no_pair_over { (j : J) → journal ≡ Some j
            → IfErr result (λ r. r.error ≡ error.Store view_error.NoPair → CannotRestart config.cluster
            (D.seen device)) }
        ensures no_pair_same { IfErr result (λ r. r.error ≡ error.Store view_error.NoPair → D.seen r.device ≡
            D.seen device) }
        ensures foreign_cluster { IfErr result (λ r. r.error ≡ error.Store view_error.ForeignCluster →
            found config.cluster (D.seen device) ≡ foreign) }
        ensures foreign_same { IfErr result (λ r. r.error ≡ error.Store view_error.ForeignCluster → D.seen r.device ≡
            D.seen device) }
        ensures keeps_journal { IfErr result (λ r. r.error ≡ error.Store view_error.KeepsJournal →
            IsJournaled (found config.cluster (D.seen device))) }
        ensures keeps_same { IfErr result (λ r. r.error ≡ error.Store view_error.KeepsJournal → D.seen r.device ≡
            D.seen device) }
        ensures device_failed { IfErr result (λ r. r.error ≡ error.Store view_error.DeviceFailed
            → HasRisen (D.failure_count device) (D.failure_count r.device)) }
        ensures not_failed { IfErr result (λ r. r.error ≢ error.Store view_error.Failed) }
        ensures not_halted { IfErr result (λ r. r.error ≢ error.Halted) }

        // Nor do E23, where the journal is another cluster's, E26, where it is another replica's or doesn't go with the
        // pair, E27, where a note of another version says whose it is, and E28, where a string spells no note; no
        // refusal of the journal writes the pair.
        ensures foreign_journal { (j : J) → journal ≡ Some j → IfErr result (λ r. r.error ≡ error.ForeignJournal →
            IsForeign (owner_of config) (recorded (J.seen j))) }
        ensures stale_journal { (j : J) → journal ≡ Some j → IfErr result (λ r. r.error ≡ error.StaleJournal
            → IsStale (owner_of config) (found config.cluster (D.seen device)) (recorded (J.seen j))) }
        ensures another_version { (j : J) → journal ≡ Some j
            → IfErr result (λ r. r.error ≡ error.Journal note_error.AnotherVersion →
            HasAnotherVersion (recorded (J.seen j))) }
        ensures damaged { (j : J) → journal ≡ Some j → IfErr result (λ r. r.error ≡ error.Journal note_error.Damaged →
            HasDamage (recorded (J.seen j))) }
        ensures log_failed { (j : J) → journal ≡ Some j
            → IfErr result (λ r. r.error ≡ error.Journal note_error.DeviceFailed → HasRisenIn J.failure_count journal
            r.journal) }
        ensures same { IfErr result (λ r. r.error ≢ error.Store view_error.DeviceFailed → D.seen r.device ≡
            D.seen device) }
        ensures no_journal { (f : NoteError) → journal ≡ None → IfErr result (λ r. r.error ≢ error.Journal f) }
        ensures no_foreign_journal { journal ≡ None → IfErr result (λ r. r.error ≢ error.ForeignJournal) }
        ensures no_stale_journal { journal ≡ None → IfErr result (λ r. r.error ≢ error.StaleJournal) }
    {
        match journal {
            Some(journal) => reopen_over(alloc, device, journal, config),
            None => reopen_alone(alloc, device, config),
        }
    }
}
