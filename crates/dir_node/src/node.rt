//! A node: a replica, what it has executed, the device of its stored pair, and its journal where it keeps one. Which
//! step an event makes is decided below, who sends and who waits above.
ghost use Rattle.std.specs.Prelude.{◌≡◌, ◌-◌, ◌==◌, ◌∷◌, [], ◌↔◌, List, Result, true, false, None, not, length, slice_get, IfOk, OnOk, IsErrOf};
ghost use Rattle.state_machine.specs.Executing.{directory_at, due_after, replies_at};
ghost use Rattle.dir_node.specs.Handling.{MakesSteps, left_to_catch_up};
ghost use Rattle.dir_node.specs.Logged.{HasRisenIn, LeavesOnlyIn, TellsSome, device_in};
ghost use Rattle.dir_node.specs.NodeState.{CannotStore, CatchesUp, IsSameNode, KeepsLog, KeepsPair, given, head, pair_of};
ghost use Rattle.dir_node.specs.private.NodeState.{IsRunning};
ghost use Rattle.log_journal.specs.Refused.{IsOfKeepingOne};
ghost use Rattle.log_journal.specs.Taken.{MakesSome};
ghost use Rattle.std.specs.declared.alloc.AllocError.{AllocError};
ghost use Rattle.state_machine.specs.dir_store.ldap_op.Values.{OpValue};
ghost use Rattle.vr_state.specs.declared.message.Outputs.{Outputs};
ghost use Rattle.dir_node.specs.Outcomes.{outcome_at, outcome_of, outcome_view, standing_of};
ghost use Rattle.view_store.specs.Device.{HasRisen, LeavesOnly};
ghost use Rattle.view_store.specs.Slots.{own, IsWellPlaced};
ghost use Rattle.view_store.specs.Store.{IsFormerOrNew};
ghost use Rattle.vr_state.specs.Step.{step as step_of};
ghost use Rattle.vr_state.specs.State.{is_recovering};
ghost use Rattle.vr_state.specs.Views.{state};

use crate::config::{AllHandled, Handled};
use crate::error::NodeError;
use crate::fault::Untaken;
use crate::keeping::{execute_due, follow};
use crate::outcome::Outcome;
use crate::standing::Standing;
use crate::taking::{take_all, take_one};
use log_journal::{Device as JournalDevice, Journal, NoteError};
use state_machine::{Executed, Op, Store};
use std::alloc::Global;
use std::marker::Model;
use view_store::{Device, Pair, ViewStore, ViewStoreError};
use vr_state::event::Event;
use vr_state::replica::Replica;
use vr_state::standing::{is_recovering, leads};
use vr_state::words::{Client, LogEntry, Status};

/// A running replica. It is `Drop` where its devices are; whoever shares it puts it into a lock.
pub struct Node<D: Device, J: JournalDevice> {
    replica: Replica<Op>,
    executed: Executed,
    views: ViewStore<D>,
    journal: Option<Journal<J>>,
    restarts: u64,
    is_halted: bool,
    catch_up: u64,
}

// Not derived: see "What the gate takes" in docs/ARCHITECTURE.md.
impl<D: Device + Drop, J: JournalDevice + Drop> Drop for Node<D, J> {
    fn drop(self) {
        let Node {
            replica: _,
            executed: _,
            views: _,
            journal: _,
            restarts: _,
            is_halted: _,
            catch_up: _,
        } = self;
    }
}

impl<D: Device, J: JournalDevice> Model for Node<D, J> {
    ghost use Rattle.std.specs.Prelude.{◌≡◌, false};
    ghost use Rattle.dir_node.specs.NodeState.{NodeValue};
    ghost use Rattle.dir_node.specs.private.NodeState.{IsRunning};
    ghost use Rattle.vr_state.specs.Views.{state};

    ghost Value = { NodeValue D J };

    ghost view = { λ n. record {
      index = n.replica.index;
      count = n.replica.count;
      cluster = n.views.cluster;
      replica = state n.replica;
      executed = n.executed;
      device = n.views.device;
      journal = n.journal;
      restarts = n.restarts;
      is_halted = n.is_halted;
      catch_up = n.catch_up;
    } };

    ghost invariant = { λ n. n.is_halted ≡ false
        → IsRunning D.seen D.may_leave J.seen J.may_leave n.views n.journal n.replica.index n.replica.count
        (state n.replica) n.restarts };
}

impl<D: Device, J: JournalDevice> Node<D, J> {
    /// A node that runs, and has executed nothing yet.
    pub(crate) fn assembled(
        replica: Replica<Op>,
        executed: Executed,
        views: ViewStore<D>,
        journal: Option<Journal<J>>,
        restarts: u64,
        catch_up: u64,
    ) -> Node<D, J>
        requires { IsRunning D.seen D.may_leave J.seen J.may_leave views journal replica.index replica.count
            (state replica) restarts }
        ensures { result ≡ record {
          index = replica.index;
          count = replica.count;
          cluster = views.cluster;
          replica = state replica;
          executed = executed;
          device = views.device;
          journal = journal;
          restarts = restarts;
          is_halted = false;
          catch_up = catch_up;
        } }
    {
        Node {
            replica,
            executed,
            views,
            journal,
            restarts,
            is_halted: false,
            catch_up,
        }
    }

    /// Handles one event: the replica makes its step, its journal, where it keeps one, is settled, its view is stored
    /// where it grew, and what is committed is executed. Only then is anything given out. Where the journal or the pair
    /// can't be written, nothing is given out, and the node has stopped for good.
    pub fn handle(&mut self, alloc: Global, event: Event<Op>) -> Result<Handled, NodeError>
        // The replica makes its step, and the outputs are the step's.
        ensures step { IfOk result (λ h. given self.new.replica h.outputs ≡ step_of self.old.count self.old.index
            self.old.replica event) }

        // The committed records that come next are executed, all of them unless it is behind.
        ensures executed { IfOk result (λ h. CatchesUp h.behind self.old.executed.records
            (due_after (length self.old.executed.records) self.new.replica.commit_number self.new.replica.log)
            self.new.executed.records) }

        // Every crash from then on leaves the replica's pair, and a journal that tells the replica.
        ensures kept { OnOk result (KeepsPair D.may_leave self.new) }
        ensures logged { OnOk result (KeepsLog J.may_leave self.new) }
        ensures running { OnOk result (self.new.is_halted ≡ false) }
        ensures same { IsSameNode self.old self.new }
        ensures catch_up { OnOk result (self.new.catch_up ≡ left_to_catch_up self.old.catch_up self.new.replica) }

        // A refused growth changes nothing.
        ensures no_memory { IsErrOf result NodeError.NoMemory → self.new ≡ self.old }

        // A node that has stopped answers so, and changes nothing.
        ensures halted { IsErrOf result NodeError.Halted ↔ (self.old.is_halted ≡ true) }
        ensures halted_same { IsErrOf result NodeError.Halted → self.new ≡ self.old }

        // It stops where the pair can't be stored, executes nothing then, and gives nothing out: E21 only where the
        // device has failed, E22 only where the view is past the greatest number or the sequence of pairs is at its
        // end, and then nothing is written. There is no other cause.
        ensures stops { (e : ViewStoreError) → IsErrOf result (NodeError.Store e) → (self.new.is_halted ≡ true)
            × (self.new.executed ≡ self.old.executed) }
        // The journal, where there is one, is settled then, and tells the replica after the step; the device gives the
        // pair from before the step or from after it.
        ensures store_late { (e : ViewStoreError) → IsErrOf result (NodeError.Store e)
            → (self.new.replica ≡ (step_of self.old.count self.old.index self.old.replica event).state)
            × KeepsLog J.may_leave self.new }
        ensures stopped { IsErrOf result (NodeError.Store ViewStoreError.DeviceFailed) →
            IsWellPlaced (D.seen self.old.device)
            → IsFormerOrNew self.old.cluster (own (pair_of self.old))
            (record (pair_of self.old) {
              view = (step_of self.old.count self.old.index self.old.replica
                  event).state.view_number;
            }) (D.seen self.new.device) }
        ensures device_failed { IsErrOf result (NodeError.Store ViewStoreError.DeviceFailed)
            → HasRisen (D.failure_count self.old.device) (D.failure_count self.new.device) }
        ensures no_pair { IsErrOf result (NodeError.Store ViewStoreError.NoPair)
            → CannotStore (step_of self.old.count self.old.index self.old.replica event).state.view_number
            (D.seen self.old.device) }
        ensures no_pair_same { IsErrOf result (NodeError.Store ViewStoreError.NoPair) → self.new.device ≡
            self.old.device }
        ensures foreign_cluster { IsErrOf result (NodeError.Store ViewStoreError.ForeignCluster) → ⊥ }
        ensures keeps_journal { IsErrOf result (NodeError.Store ViewStoreError.KeepsJournal) → ⊥ }
        ensures not_failed { IsErrOf result (NodeError.Store ViewStoreError.Failed) → ⊥ }

        // It stops too where its journal can't be written, and then the pair's device isn't called: E21 only where the
        // journal's device has failed. Without a journal that doesn't happen.
        ensures log_stops { (e : NoteError) → IsErrOf result (NodeError.Journal e)
            → (self.new.is_halted ≡ true) × (self.new.executed ≡ self.old.executed)
            × (self.new.device ≡ self.old.device) }
        // The replica is as it is before the event or after it.
        ensures log_late { (e : NoteError) → IsErrOf result (NodeError.Journal e)
            → MakesSome self.old.count self.old.index self.old.replica (event ∷ []) self.new.replica }
        ensures log_failed { IsErrOf result (NodeError.Journal NoteError.DeviceFailed)
            → HasRisenIn J.failure_count (device_in self.old.journal) (device_in self.new.journal) }
        ensures no_journal { (e : NoteError) → self.old.journal ≡ None → IsErrOf result (NodeError.Journal e) → ⊥ }
        // There is no other cause than that, no room, and an update without a spelling: want of memory stops no node.
        ensures log_causes { (e : NoteError) → IsErrOf result (NodeError.Journal e) → IsOfKeepingOne e }
        ensures foreign_journal { IsErrOf result NodeError.ForeignJournal → ⊥ }
        ensures stale_journal { IsErrOf result NodeError.StaleJournal → ⊥ }

        // A crash at any moment of the call leaves the pair from before the step or from after it, and a journal that
        // tells the replica from before it or from after it.
        ensures any_moment { self.old.is_halted ≡ false → IsWellPlaced (D.seen self.old.device)
            → LeavesOnly D.moment D.left_since self.old.device self.new.device (IsFormerOrNew self.old.cluster
            (own (pair_of self.old))
            (record (pair_of self.old) {
              view = (step_of self.old.count self.old.index self.old.replica
                  event).state.view_number;
            })) }
        ensures any_log_moment { self.old.is_halted ≡ false
            → LeavesOnlyIn J.moment J.left_since (device_in self.old.journal) (device_in self.new.journal)
            (TellsSome (head self.old) self.old.count self.old.index self.old.replica (event ∷ [])) }
        ensures placed { OnOk result (IsWellPlaced (D.seen self.old.device) → IsWellPlaced (D.seen self.new.device)) }
    {
        if self.is_halted {
            return Err(NodeError::Halted);
        }
        let former = self.replica.view_number;
        let outputs = match take_one(alloc, &mut self.replica, &mut self.journal, event) {
            Ok(outputs) => outputs,
            Err(Untaken::NoMemory) => return Err(NodeError::NoMemory),
            Err(Untaken::Journal(error)) => {
                self.is_halted = true;
                return Err(NodeError::Journal(error));
            }
        };
        let pair = Pair {
            view: self.replica.view_number,
            restarts: self.restarts,
            journaled: self.journal.is_some(),
        };
        match follow(
            alloc,
            &mut self.views,
            &mut self.executed,
            &self.replica,
            former,
            pair,
        ) {
            Ok(behind) => {
                self.catch_up = left_to_catch_up(self.catch_up, &self.replica);
                Ok(Handled { outputs, behind })
            }
            Err(error) => {
                self.is_halted = true;
                Err(NodeError::Store(error))
            }
        }
    }

    /// Handles a batch of events, one after another: the replica makes their steps, its journal, where it keeps one, is
    /// settled by one write and one sync, its view is stored where it grew, and what is committed is executed. Only
    /// then is anything given out. Where the journal or the pair can't be written, nothing is given out, and the node
    /// has stopped for good.
    pub fn handle_all(
        &mut self,
        alloc: Global,
        events: Vec<Event<Op>>,
    ) -> Result<AllHandled, NodeError>
        // Each event makes its step, and its outputs are the step's, or it is left out for want of memory.
        ensures steps { IfOk result (λ h. MakesSteps self.old.count self.old.index self.old.replica events.items
            h.outputs.items self.new.replica) }

        // The committed records that come next are executed, all of them unless it is behind.
        ensures executed { IfOk result (λ h. CatchesUp h.behind self.old.executed.records
            (due_after (length self.old.executed.records) self.new.replica.commit_number self.new.replica.log)
            self.new.executed.records) }

        // Every crash from then on leaves the replica's pair, and a journal that tells the replica.
        ensures kept { OnOk result (KeepsPair D.may_leave self.new) }
        ensures logged { OnOk result (KeepsLog J.may_leave self.new) }
        ensures running { OnOk result (self.new.is_halted ≡ false) }
        ensures same { IsSameNode self.old self.new }
        ensures catch_up { OnOk result (self.new.catch_up ≡ left_to_catch_up self.old.catch_up self.new.replica) }

        // The whole batch may be refused memory, and changes nothing then.
        ensures no_memory { IsErrOf result NodeError.NoMemory → self.new ≡ self.old }

        // A node that has stopped answers so, and changes nothing.
        ensures halted { IsErrOf result NodeError.Halted ↔ (self.old.is_halted ≡ true) }
        ensures halted_same { IsErrOf result NodeError.Halted → self.new ≡ self.old }

        // It stops where the pair can't be stored, executes nothing then, and gives nothing out: E21 only where the
        // device has failed, E22 only where the view is past the greatest number or the sequence of pairs is at its
        // end, and then nothing is written. There is no other cause.
        ensures stops { (e : ViewStoreError) → IsErrOf result (NodeError.Store e) → (self.new.is_halted ≡ true)
            × (self.new.executed ≡ self.old.executed) }
        // The journal, where there is one, is settled then, and tells the replica after the steps; the device gives the
        // pair from before them or from after them.
        ensures store_late { (e : ViewStoreError) → IsErrOf result (NodeError.Store e)
            → ((xs : List (Result (Outputs OpValue) AllocError)) × MakesSteps self.old.count self.old.index
            self.old.replica events.items xs self.new.replica)
            × KeepsLog J.may_leave self.new }
        ensures stopped { IsErrOf result (NodeError.Store ViewStoreError.DeviceFailed) →
            IsWellPlaced (D.seen self.old.device)
            → IsFormerOrNew self.old.cluster (own (pair_of self.old))
            (record (pair_of self.old) { view = self.new.replica.view_number }) (D.seen self.new.device) }
        ensures device_failed { IsErrOf result (NodeError.Store ViewStoreError.DeviceFailed)
            → HasRisen (D.failure_count self.old.device) (D.failure_count self.new.device) }
        ensures no_pair { IsErrOf result (NodeError.Store ViewStoreError.NoPair)
            → CannotStore self.new.replica.view_number (D.seen self.old.device) }
        ensures no_pair_same { IsErrOf result (NodeError.Store ViewStoreError.NoPair) → self.new.device ≡
            self.old.device }
        ensures foreign_cluster { IsErrOf result (NodeError.Store ViewStoreError.ForeignCluster) → ⊥ }
        ensures keeps_journal { IsErrOf result (NodeError.Store ViewStoreError.KeepsJournal) → ⊥ }
        ensures not_failed { IsErrOf result (NodeError.Store ViewStoreError.Failed) → ⊥ }

        // It stops too where its journal can't be written, and then the pair's device isn't called: E21 only where the
        // journal's device has failed. Without a journal that doesn't happen.
        ensures log_stops { (e : NoteError) → IsErrOf result (NodeError.Journal e)
            → (self.new.is_halted ≡ true) × (self.new.executed ≡ self.old.executed)
            × (self.new.device ≡ self.old.device) }
        // The replica is as it is after some first of the events, each of which makes its step or is left out.
        ensures log_late { (e : NoteError) → IsErrOf result (NodeError.Journal e)
            → MakesSome self.old.count self.old.index self.old.replica events.items self.new.replica }
        ensures log_failed { IsErrOf result (NodeError.Journal NoteError.DeviceFailed)
            → HasRisenIn J.failure_count (device_in self.old.journal) (device_in self.new.journal) }
        ensures no_journal { (e : NoteError) → self.old.journal ≡ None → IsErrOf result (NodeError.Journal e) → ⊥ }
        // There is no other cause than that, no room, and an update without a spelling: want of memory stops no node.
        ensures log_causes { (e : NoteError) → IsErrOf result (NodeError.Journal e) → IsOfKeepingOne e }
        ensures foreign_journal { IsErrOf result NodeError.ForeignJournal → ⊥ }
        ensures stale_journal { IsErrOf result NodeError.StaleJournal → ⊥ }

        // A crash at any moment of the call leaves the pair from before the batch or from after it, and a journal that
        // tells the replica after some first of the events that were taken.
        ensures any_moment { self.old.is_halted ≡ false → IsWellPlaced (D.seen self.old.device)
            → LeavesOnly D.moment D.left_since self.old.device self.new.device (IsFormerOrNew self.old.cluster
            (own (pair_of self.old))
            (record (pair_of self.old) { view = self.new.replica.view_number })) }
        ensures any_log_moment { self.old.is_halted ≡ false
            → LeavesOnlyIn J.moment J.left_since (device_in self.old.journal) (device_in self.new.journal)
            (TellsSome (head self.old) self.old.count self.old.index self.old.replica events.items) }
        ensures placed { OnOk result (IsWellPlaced (D.seen self.old.device) → IsWellPlaced (D.seen self.new.device)) }
    {
        if self.is_halted {
            return Err(NodeError::Halted);
        }
        let former = self.replica.view_number;
        let outputs = match take_all(alloc, &mut self.replica, &mut self.journal, events) {
            Ok(outputs) => outputs,
            Err(Untaken::NoMemory) => return Err(NodeError::NoMemory),
            Err(Untaken::Journal(error)) => {
                self.is_halted = true;
                return Err(NodeError::Journal(error));
            }
        };
        let pair = Pair {
            view: self.replica.view_number,
            restarts: self.restarts,
            journaled: self.journal.is_some(),
        };
        match follow(
            alloc,
            &mut self.views,
            &mut self.executed,
            &self.replica,
            former,
            pair,
        ) {
            Ok(behind) => {
                self.catch_up = left_to_catch_up(self.catch_up, &self.replica);
                Ok(AllHandled { outputs, behind })
            }
            Err(error) => {
                self.is_halted = true;
                Err(NodeError::Store(error))
            }
        }
    }

    /// Executes the committed records that come next, before any event: after a start over a journal, all that it says
    /// is committed. Whether some of these are left for want of memory; they are executed after the next event.
    pub fn execute_due(&mut self, alloc: Global) -> bool
        ensures executed { CatchesUp result self.old.executed.records
            (due_after (length self.old.executed.records) self.old.replica.commit_number self.old.replica.log)
            self.new.executed.records }
        ensures same { IsSameNode self.old self.new }
        ensures nothing_else { self.new ≡ record self.old { executed = self.new.executed } }
    {
        execute_due(alloc, &mut self.executed, &self.replica)
    }

    /// What became of a client's request. The client's latest record is found in the client table, and its reply by its
    /// place: no log is walked, and no memory taken. A node that has stopped has lost what isn't executed.
    pub fn outcome(&self, client: Client, number: u64) -> Outcome<'_>
        ensures { outcome_view result ≡ outcome_of self.now client number }
    {
        match self.replica.client_table.latest(client) {
            None => Outcome::Lost,
            Some(latest) => {
                if number < latest.request_number {
                    Outcome::Stale
                } else if latest.request_number == number {
                    self.outcome_at(latest.op_number)
                } else {
                    Outcome::Lost
                }
            }
        }
    }

    /// What became of the record at this place.
    fn outcome_at(&self, op_number: u64) -> Outcome<'_>
        ensures { outcome_view result ≡ outcome_at self.now op_number (slice_get (replies_at self.now.executed)
            (op_number - 1)) }
    {
        match self.executed.reply(op_number.saturating_sub(1) as usize) {
            Some(reply) => Outcome::Done {
                number: op_number,
                reply,
            },
            None => {
                if !self.is_halted && leads(&self.replica, self.replica.view_number) {
                    Outcome::Pending
                } else {
                    Outcome::Lost
                }
            }
        }
    }

    /// Where it stands among the replicas.
    pub fn standing(&self) -> Standing
        ensures { result ≡ standing_of self.now }
    {
        if self.is_halted {
            return Standing::Recovering;
        }
        match self.replica.status {
            Status::Normal => {
                let primary = self.replica.view_number % self.replica.count;
                if primary == self.replica.index {
                    Standing::Primary
                } else {
                    Standing::Backup { primary }
                }
            }
            Status::ViewChange => Standing::Changing,
            Status::Recovering => Standing::Recovering,
        }
    }

    /// The directory after what is executed.
    pub fn store(&self) -> &Store
        ensures directory { result.now.directory ≡ directory_at self.now.executed }
        ensures indexes { result.now.indexes ≡ self.now.executed.indexes }
    {
        self.executed.store()
    }

    /// What it has executed.
    pub fn executed(&self) -> &Executed
        ensures { result.now ≡ self.now.executed }
    {
        &self.executed
    }

    /// The records that it has executed, in their order.
    pub fn executed_records(&self) -> &[LogEntry<Op>]
        ensures { result.now ≡ self.now.executed.records }
    {
        self.executed.records()
    }

    /// How many records are executed: the number of the last.
    pub fn executed_len(&self) -> usize
        ensures { result ≡ length self.now.executed.records }
    {
        self.executed.len()
    }

    /// How many records its log has.
    pub fn log_len(&self) -> u64
        ensures { result ≡ length self.now.replica.log }
    {
        self.replica.log.len() as u64
    }

    /// The records of its log, in their order.
    pub fn log(&self) -> &[LogEntry<Op>]
        ensures { result.now ≡ self.now.replica.log }
    {
        self.replica.log.as_slice()
    }

    /// How many of them are committed.
    pub fn commit_number(&self) -> u64
        ensures { result ≡ self.now.replica.commit_number }
    {
        self.replica.commit_number
    }

    /// The replica's view.
    pub fn view_number(&self) -> u64
        ensures { result ≡ self.now.replica.view_number }
    {
        self.replica.view_number
    }

    /// The last view in which the replica's status was normal.
    pub fn last_normal_view(&self) -> u64
        ensures { result ≡ self.now.replica.last_normal_view }
    {
        self.replica.last_normal_view
    }

    /// Whether the replica has a state of its own: it doesn't recover.
    pub fn remembers(&self) -> bool
        ensures { result ≡ not (is_recovering self.now.replica.status) }
    {
        !is_recovering(&self.replica)
    }

    /// Which start of the replica this is, counted from 1.
    pub fn restarts(&self) -> u64
        ensures { result ≡ self.now.restarts }
    {
        self.restarts
    }

    /// Whether it has stopped for good.
    pub fn is_halted(&self) -> bool
        ensures { result ≡ self.now.is_halted }
    {
        self.is_halted
    }

    /// The replica's index among all, from 0.
    pub fn index(&self) -> u64
        ensures { result ≡ self.now.index }
    {
        self.replica.index
    }

    /// How many replicas there are.
    pub fn count(&self) -> u64
        ensures { result ≡ self.now.count }
    {
        self.replica.count
    }

    /// Whether it has committed as much as its log had when it went on from its journal, or all of a log that replaced
    /// that one. It has where it started in another way.
    pub fn is_caught_up(&self) -> bool
        ensures { result ≡ (self.now.catch_up == 0) }
    {
        self.catch_up == 0
    }

    /// The devices, for the node to be opened again.
    pub fn into_devices(self) -> (D, Option<J>)
        ensures device { result.0 ≡ self.device }
        ensures journal { result.1 ≡ device_in self.journal }
    {
        let Node {
            views,
            journal,
            replica: _,
            executed: _,
            restarts: _,
            is_halted: _,
            catch_up: _,
        } = self;
        (views.into_device(), device_of(journal))
    }
}

impl<D: Device, J: JournalDevice + Drop> Node<D, J> {
    /// The pair's device, for the node to be opened again.
    pub fn into_device(self) -> D
        ensures { result ≡ self.device }
    {
        let (device, _) = self.into_devices();
        device
    }
}

/// The device of a journal.
pub fn device_of<J: JournalDevice>(journal: Option<Journal<J>>) -> Option<J>
    ensures { result ≡ device_in journal }
{
    match journal {
        Some(journal) => {
            let Journal { device, end: _ } = journal;
            Some(device)
        }
        None => None,
    }
}

/// How much of a log is still to be committed before sessions are served.
fn left_to_catch_up(before: u64, replica: &Replica<Op>) -> u64
    ensures { result ≡ left_to_catch_up before (state replica.now) }
{
    let most = before.min(replica.log.len() as u64);
    if most <= replica.commit_number {
        0
    } else {
        most
    }
}
