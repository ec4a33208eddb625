// STARTVIEW: a view has begun, with this log.
ghost use Rattle.std.specs.Prelude.{◌≡◌, IfOk, OnErr};
ghost use Rattle.vr_change.specs.Rules.{start_view_at};
ghost use Rattle.vr_change.specs.private.Rules.{take_over_at};
ghost use Rattle.vr_state.specs.Views.{state, outcome, view_to_store};

use std::alloc::{AllocError, Global};
use vr_state::message::{Outputs, PeerMessage, Snapshot};
use vr_state::payload::Payload;
use vr_state::replica::Replica;
use vr_state::sending::{send_one, sending};
use vr_state::standing::{grown, is_behind, is_recovering};

/// What comes with a STARTVIEW. At an error, which is want of memory, nothing has changed.
pub fn on_start_view<P: Payload>(
    alloc: Global,
    replica: &mut Replica<P>,
    view_number: u64,
    held: Snapshot<P>,
) -> Result<Outputs<P>, AllocError>
    ensures step { IfOk result (λ out. outcome replica.new out ≡ start_view_at replica.old view_number held) }
    ensures store { IfOk result (λ out. out.store ≡ view_to_store (state replica.old) (state replica.new)) }
    ensures err { OnErr result (state replica.new ≡ state replica.old) }
    ensures index { replica.new.index ≡ replica.old.index }
    ensures count { replica.new.count ≡ replica.old.count }
{
    if !is_recovering(replica) && is_behind(replica, view_number) {
        take_over(alloc, replica, view_number, held)
    } else {
        Ok(sending(alloc, Vec::new(alloc)))
    }
}

/// Adopts a log of this view and tells its primary how much that is. At an error nothing has changed.
fn take_over<P: Payload>(
    alloc: Global,
    replica: &mut Replica<P>,
    view_number: u64,
    held: Snapshot<P>,
) -> Result<Outputs<P>, AllocError>
    ensures step { IfOk result (λ out. outcome replica.new out ≡ take_over_at replica.old view_number held) }
    ensures store { IfOk result (λ out. out.store ≡ view_to_store (state replica.old) (state replica.new)) }
    ensures err { OnErr result (state replica.new ≡ state replica.old) }
    ensures index { replica.new.index ≡ replica.old.index }
    ensures count { replica.new.count ≡ replica.old.count }
{
    let message = PeerMessage::PrepareOk {
        view_number,
        op_number: held.log.len() as u64,
    };
    let sends = send_one(alloc, view_number % replica.count, message)?;
    let store = grown(replica.view_number, view_number);
    replica.adopt(alloc, view_number, held)?;
    Ok(Outputs {
        store,
        sends,
        replies: Vec::new(alloc),
    })
}
