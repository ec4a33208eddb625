//! Reads the updates in the payloads of messages.
ghost use Rattle.ldap_op.specs.Grammar.{IsOp};
ghost use Rattle.vr_wire.specs.Payloads.{IsEntryOf, AreEntriesOf, IsHeldOf, IsChangeOf, IsResponseOf, IsMessageOf};
ghost use Rattle.vr_wire.specs.private.Payloads.{Reads, ReadsAs};
ghost use Rattle.vr_state.specs.declared.message.PeerMessage.TheVariants.{Prepare, DoViewChange, StartView, NewState, RecoveryResponse};

use crate::error::WireError;
use crate::octets::Octets;
use ldap_op::{MsgFault, Op, read_op};
use std::alloc::Global;
use vr_state::log::Log;
use vr_state::message::{Change, PeerMessage, Response, Snapshot};
use vr_state::words::LogEntry;

/// The update of a payload.
fn op_of(alloc: Global, octets: &[u8]) -> Result<Op, WireError>
    ensures { Reads IsOp result octets.now }
{
    match read_op(alloc, octets) {
        Ok(op) => Ok(op),
        Err(MsgFault::NoMemory) => Err(WireError::NoMemory),
        Err(_) => Err(WireError::BadFrame),
    }
}

/// A record with its update.
fn entry_of(alloc: Global, entry: &LogEntry<Octets<'_>>) -> Result<LogEntry<Op>, WireError>
    ensures { Reads IsEntryOf result entry.now }
{
    let payload = op_of(alloc, entry.payload.as_slice())?;
    Ok(LogEntry {
        client: entry.client,
        request_number: entry.request_number,
        payload,
    })
}

/// Records with their updates.
fn entries_of(
    alloc: Global,
    entries: &[LogEntry<Octets<'_>>],
) -> Result<Vec<LogEntry<Op>>, WireError>
    ensures { ReadsAs (λ v. v.items) AreEntriesOf result entries.now }
{
    let mut read = Vec::with_capacity(alloc, entries.len())?;
    for entry in entries {
        let entry = entry_of(alloc, entry)?;
        read.push(entry)?;
    }
    Ok(read)
}

/// A log with its updates.
fn log_of(alloc: Global, log: &Log<Octets<'_>>) -> Result<Log<Op>, WireError>
    ensures { Reads AreEntriesOf result log.now }
{
    let entries = entries_of(alloc, log.as_slice())?;
    Ok(Log::from_vec(entries))
}

fn held_of(alloc: Global, held: &Snapshot<Octets<'_>>) -> Result<Snapshot<Op>, WireError>
    ensures { Reads IsHeldOf result held.now }
{
    let log = log_of(alloc, &held.log)?;
    Ok(Snapshot {
        log,
        commit_number: held.commit_number,
    })
}

fn change_of(alloc: Global, change: &Change<Octets<'_>>) -> Result<Change<Op>, WireError>
    ensures { Reads IsChangeOf result change.now }
{
    let log = log_of(alloc, &change.log)?;
    Ok(Change {
        log,
        last_normal_view: change.last_normal_view,
        commit_number: change.commit_number,
    })
}

fn response_of(alloc: Global, response: &Response<Octets<'_>>) -> Result<Response<Op>, WireError>
    ensures { Reads IsResponseOf result response.now }
{
    let view_number = response.view_number;
    match &response.held {
        None => Ok(Response {
            view_number,
            held: None,
        }),
        Some(held) => {
            let held = held_of(alloc, held)?;
            Ok(Response {
                view_number,
                held: Some(held),
            })
        }
    }
}

/// A PREPARE with its update.
fn prepare_of(
    alloc: Global,
    view_number: u64,
    entry: &LogEntry<Octets<'_>>,
    op_number: u64,
    commit_number: u64,
) -> Result<PeerMessage<Op>, WireError>
    ensures { Reads IsMessageOf result (Prepare view_number entry.now op_number commit_number) }
{
    let entry = entry_of(alloc, entry)?;
    Ok(PeerMessage::Prepare {
        view_number,
        entry,
        op_number,
        commit_number,
    })
}

fn do_view_change_of(
    alloc: Global,
    view_number: u64,
    change: &Change<Octets<'_>>,
) -> Result<PeerMessage<Op>, WireError>
    ensures { Reads IsMessageOf result (DoViewChange view_number change.now) }
{
    let change = change_of(alloc, change)?;
    Ok(PeerMessage::DoViewChange {
        view_number,
        change,
    })
}

fn start_view_of(
    alloc: Global,
    view_number: u64,
    held: &Snapshot<Octets<'_>>,
) -> Result<PeerMessage<Op>, WireError>
    ensures { Reads IsMessageOf result (StartView view_number held.now) }
{
    let held = held_of(alloc, held)?;
    Ok(PeerMessage::StartView { view_number, held })
}

fn new_state_of(
    alloc: Global,
    view_number: u64,
    base: u64,
    tail: &Snapshot<Octets<'_>>,
) -> Result<PeerMessage<Op>, WireError>
    ensures { Reads IsMessageOf result (NewState view_number base tail.now) }
{
    let tail = held_of(alloc, tail)?;
    Ok(PeerMessage::NewState {
        view_number,
        base,
        tail,
    })
}

fn recovery_response_of(
    alloc: Global,
    nonce: u64,
    response: &Response<Octets<'_>>,
) -> Result<PeerMessage<Op>, WireError>
    ensures { Reads IsMessageOf result (RecoveryResponse nonce response.now) }
{
    let response = response_of(alloc, response)?;
    Ok(PeerMessage::RecoveryResponse { nonce, response })
}

/// A message with its updates.
pub fn with_ops(
    alloc: Global,
    message: &PeerMessage<Octets<'_>>,
) -> Result<PeerMessage<Op>, WireError>
    ensures { Reads IsMessageOf result message.now }
{
    match message {
        PeerMessage::Prepare {
            view_number,
            entry,
            op_number,
            commit_number,
        } => prepare_of(alloc, *view_number, entry, *op_number, *commit_number),
        PeerMessage::PrepareOk {
            view_number,
            op_number,
        } => Ok(PeerMessage::PrepareOk {
            view_number: *view_number,
            op_number: *op_number,
        }),
        PeerMessage::Commit {
            view_number,
            commit_number,
        } => Ok(PeerMessage::Commit {
            view_number: *view_number,
            commit_number: *commit_number,
        }),
        PeerMessage::StartViewChange { view_number } => Ok(PeerMessage::StartViewChange {
            view_number: *view_number,
        }),
        PeerMessage::DoViewChange {
            view_number,
            change,
        } => do_view_change_of(alloc, *view_number, change),
        PeerMessage::StartView { view_number, held } => start_view_of(alloc, *view_number, held),
        PeerMessage::GetState {
            view_number,
            commit_number,
        } => Ok(PeerMessage::GetState {
            view_number: *view_number,
            commit_number: *commit_number,
        }),
        PeerMessage::NewState {
            view_number,
            base,
            tail,
        } => new_state_of(alloc, *view_number, *base, tail),
        PeerMessage::Recovery { nonce } => Ok(PeerMessage::Recovery { nonce: *nonce }),
        PeerMessage::RecoveryResponse { nonce, response } => {
            recovery_response_of(alloc, *nonce, response)
        }
    }
}
