// The DOVIEWCHANGE: what a replica brings into the new view.
ghost use Rattle.std.specs.Prelude.{◌≡◌, IfOk, OnErr};
ghost use Rattle.vr_change.specs.private.Rules.{declare_at, send_change_at};
ghost use Rattle.vr_state.specs.Outcome.{after_sends};
ghost use Rattle.vr_state.specs.ViewChange.{own_change};
ghost use Rattle.vr_state.specs.Views.{state, outcome};

use crate::beginning::note_change;
use std::alloc::{AllocError, Global};
use vr_state::message::{Change, Outputs, PeerMessage, Send};
use vr_state::payload::Payload;
use vr_state::replica::Replica;
use vr_state::sending::{join, send_one, sending};

/// Sends its DOVIEWCHANGE, or notes it at once where the replica is the new primary itself. The step's messages come
/// after `sends`. At an error nothing has changed.
pub fn declare<P: Payload>(
    alloc: Global,
    replica: &mut Replica<P>,
    sends: Vec<Send<P>>,
) -> Result<Outputs<P>, AllocError>
    ensures step { IfOk result (λ out. outcome replica.new out ≡ after_sends sends.items (declare_at replica.old)) }
    ensures store { IfOk result (λ out. out.store ≡ None) }
    ensures view { replica.new.view_number ≡ replica.old.view_number }
    ensures err { OnErr result (state replica.new ≡ state replica.old) }
    ensures index { replica.new.index ≡ replica.old.index }
    ensures count { replica.new.count ≡ replica.old.count }
{
    if replica.view_number % replica.count == replica.index {
        let change = own_change(alloc, replica)?;
        note_change(alloc, replica, sends, replica.index, change)
    } else {
        let declared = send_change(alloc, replica)?;
        let sends = join(sends, declared)?;
        Ok(sending(alloc, sends))
    }
}

/// The DOVIEWCHANGE to the new primary; nothing where that is the replica itself. Its only error is want of memory.
pub fn send_change<P: Payload>(
    alloc: Global,
    replica: &Replica<P>,
) -> Result<Vec<Send<P>>, AllocError>
    ensures { IfOk result (λ sends. sends.items ≡ send_change_at replica.now) }
{
    let primary = replica.view_number % replica.count;
    if primary == replica.index {
        return Ok(Vec::new(alloc));
    }
    let message = PeerMessage::DoViewChange {
        view_number: replica.view_number,
        change: own_change(alloc, replica)?,
    };
    send_one(alloc, primary, message)
}

/// What its DOVIEWCHANGE tells: its log, its last normal view and its commit-number. Its only error is want of memory.
fn own_change<P: Payload>(alloc: Global, replica: &Replica<P>) -> Result<Change<P>, AllocError>
    ensures { IfOk result (λ change. change ≡ own_change (state replica.now)) }
{
    let log = replica.log.copy(alloc)?;
    Ok(Change {
        log,
        last_normal_view: replica.last_normal_view,
        commit_number: replica.commit_number,
    })
}
