// RECOVERY: another replica has crashed and asks for the state. Nothing of the replica changes here.
ghost use Rattle.std.specs.Prelude.{◌≡◌, IfOk};
ghost use Rattle.vr_recover.specs.Rules.{recovery_at};
ghost use Rattle.vr_recover.specs.private.Rules.{held_at};
ghost use Rattle.vr_state.specs.Outcome.{snapshot};
ghost use Rattle.vr_state.specs.Views.{state, outcome, view_to_store};

use std::alloc::{AllocError, Global};
use vr_state::message::{Outputs, PeerMessage, Response, Snapshot};
use vr_state::payload::Payload;
use vr_state::replica::Replica;
use vr_state::sending::{send_one, sending};
use vr_state::words::Status;

#[tactic(auto, using(vr_state::proofs::Stores::none_to_store))]
/// What comes with a RECOVERY of the replica with index `from`. Its only error is want of memory.
pub fn on_recovery<P: Payload>(
    alloc: Global,
    replica: &Replica<P>,
    from: u64,
    nonce: u64,
) -> Result<Outputs<P>, AllocError>
    ensures step { IfOk result (λ out. outcome replica.now out ≡ recovery_at replica.now from nonce) }
    ensures store { IfOk result (λ out. out.store ≡ view_to_store (state replica.now) (state replica.now)) }
{
    if !matches!(replica.status, Status::Normal) {
        return Ok(sending(alloc, Vec::new(alloc)));
    }
    let held = copy_if_primary(alloc, replica)?;
    let response = Response {
        view_number: replica.view_number,
        held,
    };
    let message = PeerMessage::RecoveryResponse { nonce, response };
    let sends = send_one(alloc, from, message)?;
    Ok(sending(alloc, sends))
}

/// The log and how much of it is committed, at the primary of its view. Its only error is want of memory.
fn copy_if_primary<P: Payload>(
    alloc: Global,
    replica: &Replica<P>,
) -> Result<Option<Snapshot<P>>, AllocError>
    ensures { IfOk result (λ held. held ≡ held_at replica.now) }
{
    if replica.view_number % replica.count == replica.index {
        let held = copy_state(alloc, replica)?;
        Ok(Some(held))
    } else {
        Ok(None)
    }
}

/// The log and how much of it is committed, in memory of its own. Its only error is want of memory.
fn copy_state<P: Payload>(alloc: Global, replica: &Replica<P>) -> Result<Snapshot<P>, AllocError>
    ensures { IfOk result (λ held. held ≡ snapshot (state replica.now)) }
{
    let log = replica.log.copy(alloc)?;
    Ok(Snapshot {
        log,
        commit_number: replica.commit_number,
    })
}
