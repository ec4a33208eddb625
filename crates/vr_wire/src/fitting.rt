//! Finds whether a message can be spelled: its numbers are of 63 bits, and its updates have octets.
ghost use Rattle.std.specs.Prelude.{◌<◌, ◌^◌, IsTrue, IsFalse, length};
ghost use Rattle.std.specs.List.{AllByRecursion};
ghost use Rattle.ldap_op.specs.Grammar.{IsOp};
ghost use Rattle.ldap_op.specs.Written.{IsOpInRange, op_bytes};
ghost use Rattle.vr_state.specs.declared.message.PeerMessage.TheVariants as kind;
ghost use Rattle.vr_wire.specs.Frames.{IsClientInRange};
ghost use Rattle.vr_wire.specs.private.Fitting.{CanBeSpelled, HeldIs, IsSpelled, LogIs, MessageIs, PerhapsIs};

use crate::cutting::NUMBER_END;
use crate::putting::MAX_COUNT;
use ldap_op::Op;
use vr_state::message::{Change, PeerMessage, Response, Snapshot};
use vr_state::words::{Client, LogEntry};

/// Whether two numbers are in range.
fn two_fit(first: u64, second: u64) -> bool
    ensures fits { IsTrue result → (first < 2 ^ 63) × (second < 2 ^ 63) }
    ensures lacks { IsFalse result → (first < 2 ^ 63) × (second < 2 ^ 63) → ⊥ }
{
    first < NUMBER_END && second < NUMBER_END
}

/// Whether a client's numbers are in range, and one that names itself has no life.
fn client_fits(client: Client) -> bool
    ensures fits { IsTrue result → IsClientInRange client }
    ensures lacks { IsFalse result → IsClientInRange client → ⊥ }
{
    two_fit(client.life, client.number) && (client.home != 0 || client.life == 0)
}

/// Whether an update has octets that are read as it, and 32 bits hold their length.
fn payload_fits(payload: &Op) -> bool
    ensures fits { IsTrue result → (length (op_bytes payload.now) < 2 ^ 32) × IsOp payload.now (op_bytes payload.now) }
    ensures lacks { IsFalse result → length (op_bytes payload.now) < 2 ^ 32 → IsOpInRange payload.now → ⊥ }
{
    match payload.octets() {
        Some(octets) => octets.len() <= MAX_COUNT,
        None => false,
    }
}

/// Whether a record can be spelled.
fn entry_fits(entry: &LogEntry<Op>) -> bool
    ensures fits { IsTrue result → IsSpelled entry.now }
    ensures lacks { IsFalse result → CanBeSpelled entry.now → ⊥ }
{
    client_fits(entry.client) && entry.request_number < NUMBER_END && payload_fits(&entry.payload)
}

/// Whether each of these records can be spelled.
fn entries_fit(entries: &[LogEntry<Op>]) -> bool
    ensures fits { IsTrue result → AllByRecursion IsSpelled entries.now }
    ensures lacks { IsFalse result → AllByRecursion CanBeSpelled entries.now → ⊥ }
{
    for entry in entries {
        if !entry_fits(entry) {
            return false;
        }
    }
    true
}

/// Whether a log can be spelled.
fn log_fits(entries: &[LogEntry<Op>]) -> bool
    ensures fits { IsTrue result → LogIs IsSpelled entries.now }
    ensures lacks { IsFalse result → LogIs CanBeSpelled entries.now → ⊥ }
{
    entries.len() <= MAX_COUNT && entries_fit(entries)
}

/// Whether a log with its commit-number can be spelled.
fn held_fits(held: &Snapshot<Op>) -> bool
    ensures fits { IsTrue result → HeldIs IsSpelled held.now }
    ensures lacks { IsFalse result → HeldIs CanBeSpelled held.now → ⊥ }
{
    held.commit_number < NUMBER_END && log_fits(held.log.as_slice())
}

/// Whether a log that may be missing can be spelled.
fn perhaps_fits(held: &Option<Snapshot<Op>>) -> bool
    ensures fits { IsTrue result → PerhapsIs IsSpelled held.now }
    ensures lacks { IsFalse result → PerhapsIs CanBeSpelled held.now → ⊥ }
{
    match held {
        None => true,
        Some(held) => held_fits(held),
    }
}

fn prepare_fits(view_number: u64, entry: &LogEntry<Op>, op_number: u64, commit_number: u64) -> bool
    ensures fits { IsTrue result → MessageIs IsSpelled (kind.Prepare view_number entry.now op_number commit_number) }
    ensures lacks { IsFalse result → MessageIs CanBeSpelled (kind.Prepare view_number entry.now op_number
        commit_number) → ⊥ }
{
    view_number < NUMBER_END && two_fit(op_number, commit_number) && entry_fits(entry)
}

fn change_fits(view_number: u64, change: &Change<Op>) -> bool
    ensures fits { IsTrue result → MessageIs IsSpelled (kind.DoViewChange view_number change.now) }
    ensures lacks { IsFalse result → MessageIs CanBeSpelled (kind.DoViewChange view_number change.now) → ⊥ }
{
    view_number < NUMBER_END
        && two_fit(change.last_normal_view, change.commit_number)
        && log_fits(change.log.as_slice())
}

fn start_view_fits(view_number: u64, held: &Snapshot<Op>) -> bool
    ensures fits { IsTrue result → MessageIs IsSpelled (kind.StartView view_number held.now) }
    ensures lacks { IsFalse result → MessageIs CanBeSpelled (kind.StartView view_number held.now) → ⊥ }
{
    view_number < NUMBER_END && held_fits(held)
}

fn new_state_fits(view_number: u64, base: u64, tail: &Snapshot<Op>) -> bool
    ensures fits { IsTrue result → MessageIs IsSpelled (kind.NewState view_number base tail.now) }
    ensures lacks { IsFalse result → MessageIs CanBeSpelled (kind.NewState view_number base tail.now) → ⊥ }
{
    two_fit(view_number, base) && held_fits(tail)
}

fn response_fits(nonce: u64, response: &Response<Op>) -> bool
    ensures fits { IsTrue result → MessageIs IsSpelled (kind.RecoveryResponse nonce response.now) }
    ensures lacks { IsFalse result → MessageIs CanBeSpelled (kind.RecoveryResponse nonce response.now) → ⊥ }
{
    two_fit(response.view_number, nonce) && perhaps_fits(&response.held)
}

/// Whether a message can be spelled.
pub fn message_fits(message: &PeerMessage<Op>) -> bool
    ensures fits { IsTrue result → MessageIs IsSpelled message.now }
    ensures lacks { IsFalse result → MessageIs CanBeSpelled message.now → ⊥ }
{
    match message {
        PeerMessage::Prepare {
            view_number,
            entry,
            op_number,
            commit_number,
        } => prepare_fits(*view_number, entry, *op_number, *commit_number),
        PeerMessage::PrepareOk {
            view_number,
            op_number,
        } => two_fit(*view_number, *op_number),
        PeerMessage::Commit {
            view_number,
            commit_number,
        } => two_fit(*view_number, *commit_number),
        PeerMessage::StartViewChange { view_number } => *view_number < NUMBER_END,
        PeerMessage::DoViewChange {
            view_number,
            change,
        } => change_fits(*view_number, change),
        PeerMessage::StartView { view_number, held } => start_view_fits(*view_number, held),
        PeerMessage::GetState {
            view_number,
            commit_number,
        } => two_fit(*view_number, *commit_number),
        PeerMessage::NewState {
            view_number,
            base,
            tail,
        } => new_state_fits(*view_number, *base, tail),
        PeerMessage::Recovery { nonce } => *nonce < NUMBER_END,
        PeerMessage::RecoveryResponse { nonce, response } => response_fits(*nonce, response),
    }
}
