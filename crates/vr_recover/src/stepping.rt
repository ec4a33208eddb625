// One event at one replica: each kind of event and message has its handler.
ghost use Rattle.std.specs.Prelude.{◌≡◌, ◌==◌, ◌&&◌, not, nat_lt, IfOk, OnErr};
ghost use Rattle.vr_recover.specs.Rules.{step_at};
ghost use Rattle.vr_recover.specs.private.Rules.{beat_at, message_at, peer_message_at, suspicion_at};
ghost use Rattle.vr_state.specs.Views.{state, outcome, view_to_store};

use crate::coming_back::{beat_recovering, remind};
use crate::recovery::on_recovery;
use crate::responding::on_recovery_response;
use crate::state_transfer::{on_get_state, on_new_state};
use std::alloc::{AllocError, Global};
use vr_change::{
    beat_changing, on_do_view_change, on_start_view, on_start_view_change, on_suspect,
};
use vr_normal::{beat_primary, on_commit, on_prepare, on_prepare_ok, on_request};
use vr_state::event::Event;
use vr_state::message::{Outputs, PeerMessage};
use vr_state::payload::Payload;
use vr_state::replica::Replica;
use vr_state::sending::sending;
use vr_state::words::Status;

/// The step of a replica at an event: the view to store, where it grew, then the messages and the replies. At an error,
/// which is want of memory, nothing has changed.
pub fn step<P: Payload>(
    alloc: Global,
    replica: &mut Replica<P>,
    event: Event<P>,
) -> Result<Outputs<P>, AllocError>
    ensures step { IfOk result (λ out. outcome replica.new out ≡ step_at replica.old event) }
    ensures store { IfOk result (λ out. out.store ≡ view_to_store (state replica.old) (state replica.new)) }
    ensures err { OnErr result (state replica.new ≡ state replica.old) }
    ensures index { replica.new.index ≡ replica.old.index }
    ensures count { replica.new.count ≡ replica.old.count }
{
    match event {
        Event::Request { entry } => on_request(alloc, replica, entry),
        Event::Message { from, message } => on_message(alloc, replica, from, message),
        Event::Suspect => on_suspicion(alloc, replica),
        Event::Beat => on_beat(alloc, replica),
    }
}

/// What comes with a suspicion, by the replica's status. At an error nothing has changed.
fn on_suspicion<P: Payload>(
    alloc: Global,
    replica: &mut Replica<P>,
) -> Result<Outputs<P>, AllocError>
    ensures step { IfOk result (λ out. outcome replica.new out ≡ suspicion_at replica.old) }
    ensures store { IfOk result (λ out. out.store ≡ view_to_store (state replica.old) (state replica.new)) }
    ensures err { OnErr result (state replica.new ≡ state replica.old) }
    ensures index { replica.new.index ≡ replica.old.index }
    ensures count { replica.new.count ≡ replica.old.count }
{
    match replica.status {
        Status::Normal | Status::ViewChange => on_suspect(alloc, replica),
        Status::Recovering => remind(alloc, replica),
    }
}

#[tactic(auto, using(vr_state::proofs::Stores::none_to_store))]
/// What comes with a beat, by the replica's status. Its only error is want of memory.
fn on_beat<P: Payload>(alloc: Global, replica: &Replica<P>) -> Result<Outputs<P>, AllocError>
    ensures step { IfOk result (λ out. outcome replica.now out ≡ beat_at replica.now) }
    ensures store { IfOk result (λ out. out.store ≡ view_to_store (state replica.now) (state replica.now)) }
{
    match replica.status {
        Status::Normal => {
            if replica.view_number % replica.count == replica.index {
                beat_primary(alloc, replica)
            } else {
                Ok(sending(alloc, Vec::new(alloc)))
            }
        }
        Status::ViewChange => beat_changing(alloc, replica),
        Status::Recovering => beat_recovering(alloc, replica),
    }
}

#[tactic(auto, using(vr_state::proofs::Stores::none_to_store))]
/// What comes with a message; one whose sender is no other replica is dropped. At an error nothing has changed.
fn on_message<P: Payload>(
    alloc: Global,
    replica: &mut Replica<P>,
    from: u64,
    message: PeerMessage<P>,
) -> Result<Outputs<P>, AllocError>
    ensures step { IfOk result (λ out. outcome replica.new out ≡ message_at replica.old from message) }
    ensures store { IfOk result (λ out. out.store ≡ view_to_store (state replica.old) (state replica.new)) }
    ensures err { OnErr result (state replica.new ≡ state replica.old) }
    ensures index { replica.new.index ≡ replica.old.index }
    ensures count { replica.new.count ≡ replica.old.count }
{
    if is_other(replica, from) {
        on_peer_message(alloc, replica, from, message)
    } else {
        Ok(sending(alloc, Vec::new(alloc)))
    }
}

/// Whether this is the index of another replica.
fn is_other<P: Drop>(replica: &Replica<P>, index: u64) -> bool
    ensures { result ≡ (nat_lt index replica.now.count && not (index == replica.now.index)) }
{
    index < replica.count && !(index == replica.index)
}

/// What comes with a message of another replica, by its kind. At an error nothing has changed.
fn on_peer_message<P: Payload>(
    alloc: Global,
    replica: &mut Replica<P>,
    from: u64,
    message: PeerMessage<P>,
) -> Result<Outputs<P>, AllocError>
    ensures step { IfOk result (λ out. outcome replica.new out ≡ peer_message_at replica.old from message) }
    ensures store { IfOk result (λ out. out.store ≡ view_to_store (state replica.old) (state replica.new)) }
    ensures err { OnErr result (state replica.new ≡ state replica.old) }
    ensures index { replica.new.index ≡ replica.old.index }
    ensures count { replica.new.count ≡ replica.old.count }
{
    match message {
        PeerMessage::Prepare {
            view_number,
            entry,
            op_number,
            commit_number,
        } => on_prepare(
            alloc,
            replica,
            from,
            view_number,
            entry,
            op_number,
            commit_number,
        ),
        PeerMessage::PrepareOk {
            view_number,
            op_number,
        } => on_prepare_ok(alloc, replica, from, view_number, op_number),
        PeerMessage::Commit {
            view_number,
            commit_number,
        } => on_commit(alloc, replica, from, view_number, commit_number),
        PeerMessage::StartViewChange { view_number } => {
            on_start_view_change(alloc, replica, from, view_number)
        }
        PeerMessage::DoViewChange {
            view_number,
            change,
        } => on_do_view_change(alloc, replica, from, view_number, change),
        PeerMessage::StartView { view_number, held } => {
            on_start_view(alloc, replica, view_number, held)
        }
        PeerMessage::GetState {
            view_number,
            commit_number,
        } => on_get_state(alloc, replica, from, view_number, commit_number),
        PeerMessage::NewState {
            view_number,
            base,
            tail,
        } => on_new_state(alloc, replica, from, view_number, base, tail),
        PeerMessage::Recovery { nonce } => on_recovery(alloc, replica, from, nonce),
        PeerMessage::RecoveryResponse { nonce, response } => {
            on_recovery_response(alloc, replica, from, nonce, response)
        }
    }
}
