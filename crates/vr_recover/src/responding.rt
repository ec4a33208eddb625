// RECOVERYRESPONSE: another replica answers the recovery. How responses are kept stands in `responses`. No message is
// sent here, and no client answered.
ghost use Rattle.std.specs.Prelude.{◌≡◌, IfOk, Some, OnErr};
ghost use Rattle.vr_recover.specs.Rules.{recovery_response_at};
ghost use Rattle.vr_recover.specs.private.Rules.{answered_at, end_recovery_at, kept_at, may_end_at, try_recovery_at};
ghost use Rattle.vr_state.specs.Recovery.{held_in};
ghost use Rattle.vr_state.specs.Views.{state, outcome, view_to_store};

use crate::responses::{keep, latest_view, take_back};
use std::alloc::{AllocError, Global};
use vr_state::message::{Outputs, Response, Snapshot};
use vr_state::noting::{count_noted, noted};
use vr_state::payload::Payload;
use vr_state::replica::Replica;
use vr_state::sending::{copy_snapshot, sending};
use vr_state::standing::{grown, is_recovering};

/// What comes with a RECOVERYRESPONSE of the replica with index `from`. At an error, which is want of memory, nothing
/// has changed.
pub fn on_recovery_response<P: Payload>(
    alloc: Global,
    replica: &mut Replica<P>,
    from: u64,
    nonce: u64,
    response: Response<P>,
) -> Result<Outputs<P>, AllocError>
    ensures step { IfOk result (λ out. outcome replica.new out ≡ recovery_response_at replica.old from nonce response) }
    ensures store { IfOk result (λ out. out.store ≡ view_to_store (state replica.old) (state replica.new)) }
    ensures err { OnErr result (state replica.new ≡ state replica.old) }
    ensures index { replica.new.index ≡ replica.old.index }
    ensures count { replica.new.count ≡ replica.old.count }
{
    if is_recovering(replica) && nonce == replica.nonce {
        keep_and_try(alloc, replica, from, response)
    } else {
        Ok(sending(alloc, Vec::new(alloc)))
    }
}

/// Keeps a response to its recovery, and ends the recovery where it can. At an error nothing has changed.
fn keep_and_try<P: Payload>(
    alloc: Global,
    replica: &mut Replica<P>,
    from: u64,
    response: Response<P>,
) -> Result<Outputs<P>, AllocError>
    ensures step { IfOk result (λ out. outcome replica.new out ≡ kept_at replica.old from response) }
    ensures store { IfOk result (λ out. out.store ≡ view_to_store (state replica.old) (state replica.new)) }
    ensures err { OnErr result (state replica.new ≡ state replica.old) }
    ensures index { replica.new.index ≡ replica.old.index }
    ensures count { replica.new.count ≡ replica.old.count }
{
    let kept = keep(&mut replica.responses, from, response)?;
    match try_recovery(alloc, replica) {
        Ok(outputs) => Ok(outputs),
        Err(error) => {
            take_back(&mut replica.responses, kept);
            Err(error)
        }
    }
}

/// Ends the recovery with f + 1 responses, among them one of the latest view's primary, if that view isn't below its
/// own. At an error nothing has changed.
fn try_recovery<P: Payload>(
    alloc: Global,
    replica: &mut Replica<P>,
) -> Result<Outputs<P>, AllocError>
    ensures step { IfOk result (λ out. outcome replica.new out ≡ try_recovery_at replica.old) }
    ensures store { IfOk result (λ out. out.store ≡ view_to_store (state replica.old) (state replica.new)) }
    ensures err { OnErr result (state replica.new ≡ state replica.old) }
    ensures index { replica.new.index ≡ replica.old.index }
    ensures count { replica.new.count ≡ replica.old.count }
{
    let view_number = latest_view(&replica.responses, replica.count);
    if may_end(replica, view_number) {
        let held = copy_answered(alloc, replica, view_number)?;
        end_recovery(alloc, replica, view_number, held)
    } else {
        Ok(sending(alloc, Vec::new(alloc)))
    }
}

/// Adopts what the primary of this view holds, if it has answered. At an error nothing has changed.
fn end_recovery<P: Payload>(
    alloc: Global,
    replica: &mut Replica<P>,
    view_number: u64,
    held: Option<Snapshot<P>>,
) -> Result<Outputs<P>, AllocError>
    ensures step { IfOk result (λ out. outcome replica.new out ≡ end_recovery_at replica.old view_number held) }
    ensures store { IfOk result (λ out. out.store ≡ view_to_store (state replica.old) (state replica.new)) }
    ensures err { OnErr result (state replica.new ≡ state replica.old) }
    ensures index { replica.new.index ≡ replica.old.index }
    ensures count { replica.new.count ≡ replica.old.count }
{
    match held {
        None => Ok(sending(alloc, Vec::new(alloc))),
        Some(held) => {
            let store = grown(replica.view_number, view_number);
            replica.adopt(alloc, view_number, held)?;
            Ok(Outputs {
                store,
                sends: Vec::new(alloc),
                replies: Vec::new(alloc),
            })
        }
    }
}

/// Whether f + 1 have answered, and this view isn't below its own.
fn may_end<P: Drop>(replica: &Replica<P>, view_number: u64) -> bool
    ensures { result ≡ may_end_at replica.now view_number }
{
    replica.count / 2 < count_noted(&replica.responses, replica.count)
        && replica.view_number <= view_number
}

/// What the primary of this view has answered, in memory of its own. Its only error is want of memory.
fn copy_answered<P: Payload>(
    alloc: Global,
    replica: &Replica<P>,
    view_number: u64,
) -> Result<Option<Snapshot<P>>, AllocError>
    ensures { IfOk result (λ held. held ≡ answered_at replica.now view_number) }
{
    match noted(&replica.responses, view_number % replica.count) {
        None => Ok(None),
        Some(response) => copy_held_in(alloc, response, view_number),
    }
}

/// What a response of this view holds, in memory of its own. Its only error is want of memory.
fn copy_held_in<P: Payload>(
    alloc: Global,
    response: &Response<P>,
    view_number: u64,
) -> Result<Option<Snapshot<P>>, AllocError>
    ensures { IfOk result (λ held. held ≡ held_in view_number (Some response.now)) }
{
    if response.view_number != view_number {
        return Ok(None);
    }
    match &response.held {
        None => Ok(None),
        Some(held) => {
            let copied = copy_snapshot(alloc, held)?;
            Ok(Some(copied))
        }
    }
}
