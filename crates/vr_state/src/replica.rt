//! A replica: its state, the table beside its log, and who it is. The steps stand in the crates above, and what each
//! must do in specs/.
ghost use Rattle.std.specs.Prelude.{◌≡◌, ◌<◌, ◌≤◌, ◌++◌, length, take, IfOk, OnOk, OnErr};
ghost use Rattle.vr_state.specs.ClientTable.{IsTableOf};

use crate::client_table::ClientTable;
use crate::log::Log;
use crate::message::{Change, Response, Snapshot};
use crate::words::{Latest, LogEntry, Status};
use std::alloc::{AllocError, Global};

/// A replica (VRR 4, Figure 2). Its fields are open to the crates that make its steps; callers above see its `state`.
pub struct Replica<P> {
    /// Its index among all, from 0.
    pub index: u64,
    /// How many replicas there are.
    pub count: u64,
    pub view_number: u64,
    pub status: Status,
    /// The last view in which its status was normal.
    pub last_normal_view: u64,
    pub log: Log<P>,
    pub commit_number: u64,
    /// The client table of the log.
    pub client_table: ClientTable,
    /// At a normal primary: by index, how many records each other has.
    pub acknowledged: Vec<u64>,
    /// The senders of STARTVIEWCHANGE for its view, as noted.
    pub start_view_changes: Vec<u64>,
    /// The first DOVIEWCHANGE of each sender for its view.
    pub do_view_changes: Vec<(u64, Change<P>)>,
    /// The nonce of its recovery.
    pub nonce: u64,
    /// Of each sender the first RECOVERYRESPONSE of its greatest view.
    pub responses: Vec<(u64, Response<P>)>,
    ghost placed: { index < count },
    ghost counted: { length acknowledged.items ≡ count },
    ghost tabled: { IsTableOf client_table log },
}

// Not derived: see "What the gate takes" in docs/ARCHITECTURE.md.
impl<P: Drop> Drop for Replica<P> {
    fn drop(self) {
        let Replica {
            index: _,
            count: _,
            view_number: _,
            status: _,
            last_normal_view: _,
            log: _,
            commit_number: _,
            client_table: _,
            acknowledged: _,
            start_view_changes: _,
            do_view_changes: _,
            nonce: _,
            responses: _,
        } = self;
    }
}

impl<P: Drop> Replica<P> {
    ghost use Rattle.vr_state.specs.State.{first, recovering, resuming};
    ghost use Rattle.vr_state.specs.Views.{state};
    ghost use Rattle.vr_state.specs.NormalCase.{append};
    ghost use Rattle.vr_state.specs.StateTransfer.{joined};
    ghost use Rattle.vr_state.specs.ViewChange.{adopt, own_change};

    /// The replica at the start of a cluster: normal in view 0, with nothing. Its only error is want of memory.
    pub fn first(alloc: Global, index: u64, count: u64) -> Result<Self, AllocError>
        requires { index < count }
        ensures state { IfOk result (λ replica. state replica ≡ first count) }
        ensures index { IfOk result (λ replica. replica.index ≡ index) }
        ensures count { IfOk result (λ replica. replica.count ≡ count) }
    {
        let acknowledged = vec![in alloc; 0; count as usize]?;
        Ok(Replica {
            index,
            count,
            view_number: 0,
            status: Status::Normal,
            last_normal_view: 0,
            log: Log::new(alloc),
            commit_number: 0,
            client_table: ClientTable::new(alloc),
            acknowledged,
            start_view_changes: Vec::new(alloc),
            do_view_changes: Vec::new(alloc),
            nonce: 0,
            responses: Vec::new(alloc),
        })
    }

    /// The replica after a crash: recovering in its stored view with this nonce, and with nothing else. Its only error
    /// is want of memory.
    pub fn recovering(
        alloc: Global,
        index: u64,
        count: u64,
        view_number: u64,
        nonce: u64,
    ) -> Result<Self, AllocError>
        requires { index < count }
        ensures state { IfOk result (λ replica. state replica ≡ recovering count view_number nonce) }
        ensures index { IfOk result (λ replica. replica.index ≡ index) }
        ensures count { IfOk result (λ replica. replica.count ≡ count) }
    {
        let acknowledged = vec![in alloc; 0; count as usize]?;
        Ok(Replica {
            index,
            count,
            view_number,
            status: Status::Recovering,
            last_normal_view: 0,
            log: Log::new(alloc),
            commit_number: 0,
            client_table: ClientTable::new(alloc),
            acknowledged,
            start_view_changes: Vec::new(alloc),
            do_view_changes: Vec::new(alloc),
            nonce,
            responses: Vec::new(alloc),
        })
    }

    /// The replica as it goes on in this view from what its journal kept, with at most so many records committed:
    /// normal where this was its last normal view, changing to it else. Its only error is want of memory.
    pub fn resuming(
        alloc: Global,
        index: u64,
        count: u64,
        view_number: u64,
        commit_number: u64,
        kept: Change<P>,
    ) -> Result<Self, AllocError>
        requires { index < count }
        ensures state { IfOk result (λ replica. state replica ≡ resuming count view_number commit_number kept) }
        ensures index { IfOk result (λ replica. replica.index ≡ index) }
        ensures count { IfOk result (λ replica. replica.count ≡ count) }
    {
        let acknowledged = vec![in alloc; 0; count as usize]?;
        let client_table = ClientTable::of_log(alloc, &kept.log)?;
        let Change {
            log,
            last_normal_view,
            commit_number: most,
        } = kept;
        let status = if last_normal_view == view_number {
            Status::Normal
        } else {
            Status::ViewChange
        };
        Ok(Replica {
            index,
            count,
            view_number,
            status,
            last_normal_view,
            log,
            commit_number: commit_number.min(most),
            client_table,
            acknowledged,
            start_view_changes: Vec::new(alloc),
            do_view_changes: Vec::new(alloc),
            nonce: 0,
            responses: Vec::new(alloc),
        })
    }

    /// Its log, its last normal view and its commit-number, as its DOVIEWCHANGE would tell them. It takes no memory.
    pub fn into_change(self) -> Change<P>
        ensures { result ≡ own_change (state self) }
    {
        let Replica {
            index: _,
            count: _,
            view_number: _,
            status: _,
            last_normal_view,
            log,
            commit_number,
            client_table: _,
            acknowledged: _,
            start_view_changes: _,
            do_view_changes: _,
            nonce: _,
            responses: _,
        } = self;
        Change {
            log,
            last_normal_view,
            commit_number,
        }
    }

    /// Appends a record and notes it in the client table. At an error nothing has changed.
    pub fn append(&mut self, entry: LogEntry<P>) -> Result<(), AllocError>
        ensures ok { OnOk result (state self.new ≡ append entry (state self.old)) }
        ensures err { OnErr result (state self.new ≡ state self.old) }
        ensures index { self.new.index ≡ self.old.index }
        ensures count { self.new.count ≡ self.old.count }
    {
        let client = entry.client;
        let latest = Latest {
            op_number: self.log.len() as u64 + 1,
            request_number: entry.request_number,
        };
        self.log.push(entry)?;
        match self.client_table.set(client, latest) {
            Ok(()) => Ok(()),
            Err(error) => {
                self.log.pop();
                Err(error)
            }
        }
    }

    /// Is normal in this view with this log, and commits what is committed of it. The client table is made anew, by one
    /// walk of the log, before anything changes. At an error nothing has changed.
    pub fn adopt(
        &mut self,
        alloc: Global,
        view_number: u64,
        held: Snapshot<P>,
    ) -> Result<(), AllocError>
        ensures ok { OnOk result (state self.new ≡ adopt self.old.count view_number held (state self.old)) }
        ensures err { OnErr result (state self.new ≡ state self.old) }
        ensures index { self.new.index ≡ self.old.index }
        ensures count { self.new.count ≡ self.old.count }
    {
        let Snapshot { log, commit_number } = held;
        let client_table = ClientTable::of_log(alloc, &log)?;
        let kept = log.len() as u64;
        self.view_number = view_number;
        self.status = Status::Normal;
        self.last_normal_view = view_number;
        self.log = log;
        self.commit_number = self.commit_number.max(commit_number.min(kept));
        self.client_table = client_table;
        self.acknowledged.fill(0);
        self.start_view_changes = Vec::new(alloc);
        self.do_view_changes = Vec::new(alloc);
        self.responses = Vec::new(alloc);
        Ok(())
    }

    /// Is normal in this view with its own first `base` records and this tail for its log, and commits what is
    /// committed of it. They are joined in place: its own records stay where they are. The client table is made anew,
    /// by one walk of both parts, before anything changes. At an error nothing has changed.
    pub fn adopt_tail(
        &mut self,
        alloc: Global,
        view_number: u64,
        base: u64,
        tail: Snapshot<P>,
    ) -> Result<(), AllocError>
        ensures ok { OnOk result (state self.new ≡ adopt self.old.count view_number
            (joined (state self.old) base tail) (state self.old)) }
        ensures err { OnErr result (state self.new ≡ state self.old) }
        ensures index { self.new.index ≡ self.old.index }
        ensures count { self.new.count ≡ self.old.count }
    {
        let Snapshot { log, commit_number } = tail;
        let base = self.log.len().min(base as usize);
        let joined_table = self.table_joined(alloc, base, &log)?;
        self.log.replace_after(base, log)?;
        let joined = self.log.len() as u64;
        self.view_number = view_number;
        self.status = Status::Normal;
        self.last_normal_view = view_number;
        self.commit_number = self.commit_number.max(commit_number.min(joined));
        self.client_table = joined_table;
        self.acknowledged.fill(0);
        self.start_view_changes = Vec::new(alloc);
        self.do_view_changes = Vec::new(alloc);
        self.responses = Vec::new(alloc);
        Ok(())
    }

    /// The client table of its own first `base` records and these. Its only error is want of memory.
    fn table_joined(
        &self,
        alloc: Global,
        base: usize,
        tail: &Log<P>,
    ) -> Result<ClientTable, AllocError>
        requires { base ≤ length self.now.log }
        ensures { IfOk result (λ table. IsTableOf table (take base self.now.log ++ tail.now)) }
    {
        ClientTable::of_parts(alloc, &self.log.as_slice()[..base], tail.as_slice())
    }
}
