// A replica comes back after a crash: it has its stored view and a nonce, and asks all others for the state. Where the
// view and the nonce come from isn't said here.
ghost use Rattle.std.specs.Prelude.{◌≡◌, ◌<◌, IfOk, None};
ghost use Rattle.vr_recover.specs.Rules.{beat_recovering_at, recovers, remind_at};
ghost use Rattle.vr_recover.specs.private.Rules.{is_ahead_at};
ghost use Rattle.vr_state.specs.Outcome.{to_all};
ghost use Rattle.vr_state.specs.declared.message.PeerMessage.TheVariants.{Recovery};
ghost use Rattle.vr_state.specs.Views.{state, outcome, view_to_store};

use crate::responses::latest_view;
use std::alloc::{AllocError, Global};
use vr_state::message::{Outputs, PeerMessage, Send};
use vr_state::noting::count_noted;
use vr_state::payload::Payload;
use vr_state::replica::Replica;
use vr_state::sending::{send_all, sending};

/// The replica with this index among so many, recovering in its stored view with a nonce that it never used before, and
/// what it sends first; its view is stored already. Its only error is want of memory.
pub fn recover<P: Payload>(
    alloc: Global,
    index: u64,
    count: u64,
    view_number: u64,
    nonce: u64,
) -> Result<(Replica<P>, Outputs<P>), AllocError>
    requires { index < count }
    ensures step { IfOk result (λ made. outcome made.0 made.1 ≡ recovers count index view_number nonce) }
    ensures store { IfOk result (λ made. made.1.store ≡ None) }
    ensures index { IfOk result (λ made. made.0.index ≡ index) }
    ensures count { IfOk result (λ made. made.0.count ≡ count) }
{
    let sends = ask_all(alloc, count, index, nonce)?;
    let replica = Replica::recovering(alloc, index, count, view_number, nonce)?;
    Ok((replica, sending(alloc, sends)))
}

#[tactic(auto, using(vr_state::proofs::Stores::none_to_store))]
/// The beat of a replica that recovers: it asks all others again. Its only error is want of memory.
pub fn beat_recovering<P: Payload>(
    alloc: Global,
    replica: &Replica<P>,
) -> Result<Outputs<P>, AllocError>
    ensures step { IfOk result (λ out. outcome replica.now out ≡ beat_recovering_at replica.now) }
    ensures store { IfOk result (λ out. out.store ≡ view_to_store (state replica.now) (state replica.now)) }
{
    let sends = ask_all(alloc, replica.count, replica.index, replica.nonce)?;
    Ok(sending(alloc, sends))
}

#[tactic(auto, using(vr_state::proofs::Stores::none_to_store))]
/// A suspicion at a replica that recovers: where f + 1 have answered, all in views below its own, it sends its
/// STARTVIEWCHANGE to all others again, since nobody may have heard of its view. Its only error is want of memory.
pub fn remind<P: Payload>(alloc: Global, replica: &Replica<P>) -> Result<Outputs<P>, AllocError>
    ensures step { IfOk result (λ out. outcome replica.now out ≡ remind_at replica.now) }
    ensures store { IfOk result (λ out. out.store ≡ view_to_store (state replica.now) (state replica.now)) }
{
    if !is_ahead(replica) {
        return Ok(sending(alloc, Vec::new(alloc)));
    }
    let message = PeerMessage::StartViewChange {
        view_number: replica.view_number,
    };
    let sends = send_all(alloc, replica.count, replica.index, &message)?;
    Ok(sending(alloc, sends))
}

/// Whether f + 1 have answered, all of them in views below its own.
fn is_ahead<P: Drop>(replica: &Replica<P>) -> bool
    ensures { result ≡ is_ahead_at replica.now }
{
    replica.count / 2 < count_noted(&replica.responses, replica.count)
        && latest_view(&replica.responses, replica.count) < replica.view_number
}

/// A RECOVERY with this nonce, to all but the replica itself. Its only error is want of memory.
fn ask_all<P: Payload>(
    alloc: Global,
    count: u64,
    index: u64,
    nonce: u64,
) -> Result<Vec<Send<P>>, AllocError>
    ensures { IfOk result (λ sends. sends.items ≡ to_all count index (Recovery nonce)) }
{
    let message = PeerMessage::Recovery { nonce };
    send_all(alloc, count, index, &message)
}
