// PREPAREOK: the primary hears how much a backup has, commits what f of them have, and answers the clients.
ghost use Rattle.std.specs.Prelude.{◌≡◌, IfOk, OnErr};
ghost use Rattle.vr_normal.specs.Rules.{on_prepare_ok_at};
ghost use Rattle.vr_normal.specs.private.Rules.{acknowledged_at};
ghost use Rattle.vr_state.specs.Views.{state, outcome, view_to_store};

use crate::acknowledgements::{reached, with_acknowledgement};
use std::alloc::{AllocError, Global};
use vr_state::message::Outputs;
use vr_state::payload::Payload;
use vr_state::replica::Replica;
use vr_state::replies::replies_between;
use vr_state::sending::sending;
use vr_state::standing::leads;

/// What comes with a PREPAREOK of the replica with index `from`. At an error, which is want of memory, nothing has
/// changed. It costs the square of the number of replicas, and the records that it newly commits; no other record is
/// looked at.
pub fn on_prepare_ok<P: Payload>(
    alloc: Global,
    replica: &mut Replica<P>,
    from: u64,
    view_number: u64,
    op_number: u64,
) -> Result<Outputs<P>, AllocError>
    ensures step { IfOk result (λ out. outcome replica.new out ≡ on_prepare_ok_at replica.old from view_number
        op_number) }
    ensures store { IfOk result (λ out. out.store ≡ view_to_store (state replica.old) (state replica.new)) }
    ensures err { OnErr result (state replica.new ≡ state replica.old) }
    ensures index { replica.new.index ≡ replica.old.index }
    ensures count { replica.new.count ≡ replica.old.count }
{
    if leads(replica, view_number) && op_number <= replica.log.len() as u64 {
        acknowledge(alloc, replica, from, op_number)
    } else {
        Ok(sending(alloc, Vec::new(alloc)))
    }
}

/// Notes an acknowledgement, and commits and answers what f others have acknowledged. At an error nothing has changed.
fn acknowledge<P: Payload>(
    alloc: Global,
    replica: &mut Replica<P>,
    from: u64,
    op_number: u64,
) -> Result<Outputs<P>, AllocError>
    ensures step { IfOk result (λ out. outcome replica.new out ≡ acknowledged_at replica.old from op_number) }
    ensures store { IfOk result (λ out. out.store ≡ None) }
    ensures view { replica.new.view_number ≡ replica.old.view_number }
    ensures err { OnErr result (state replica.new ≡ state replica.old) }
    ensures index { replica.new.index ≡ replica.old.index }
    ensures count { replica.new.count ≡ replica.old.count }
{
    let acknowledged = with_acknowledgement(alloc, &replica.acknowledged, from, op_number)?;
    let reached = reached(&acknowledged, replica.index);
    let held = replica.log.len() as u64;
    let commit_number = replica.commit_number.max(reached.min(held));
    let replies = replies_between(alloc, &replica.log, replica.commit_number, commit_number)?;
    replica.acknowledged = acknowledged;
    replica.commit_number = commit_number;
    Ok(Outputs {
        store: None,
        sends: Vec::new(alloc),
        replies,
    })
}
