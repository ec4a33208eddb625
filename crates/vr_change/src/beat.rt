// The beat of a replica that changes: its timer says that it is time to send again. Nothing of the replica changes
// here.
ghost use Rattle.std.specs.Prelude.{◌≡◌, ◌/◌, cond, nat_le, [], length, IfOk};
ghost use Rattle.vr_change.specs.Rules.{beat_changing_at};
ghost use Rattle.vr_change.specs.private.Rules.{send_change_at};
ghost use Rattle.vr_state.specs.Views.{state, outcome, view_to_store};

use crate::declaring::send_change;
use crate::entering::tell_all;
use std::alloc::{AllocError, Global};
use vr_state::message::{Outputs, Send};
use vr_state::payload::Payload;
use vr_state::replica::Replica;
use vr_state::sending::{join, sending};

/// The beat of a replica that changes: its STARTVIEWCHANGE again, and its DOVIEWCHANGE if that was sent. Its only error
/// is want of memory.
pub fn beat_changing<P: Payload>(
    alloc: Global,
    replica: &Replica<P>,
) -> Result<Outputs<P>, AllocError>
    ensures step { IfOk result (λ out. outcome replica.now out ≡ beat_changing_at replica.now) }
    ensures store { IfOk result (λ out. out.store ≡ view_to_store (state replica.now) (state replica.now)) }
{
    let told = tell_all(alloc, replica, replica.view_number)?;
    let declared = send_change_again(alloc, replica)?;
    let sends = join(told, declared)?;
    Ok(sending(alloc, sends))
}

/// The DOVIEWCHANGE, if f STARTVIEWCHANGEs are noted. Its only error is want of memory.
fn send_change_again<P: Payload>(
    alloc: Global,
    replica: &Replica<P>,
) -> Result<Vec<Send<P>>, AllocError>
    ensures { IfOk result (λ sends. sends.items
        ≡ cond (nat_le (replica.now.count / 2) (length replica.now.start_view_changes.items))
        (send_change_at replica.now) []) }
{
    if replica.count / 2 <= replica.start_view_changes.as_slice().len() as u64 {
        send_change(alloc, replica)
    } else {
        Ok(Vec::new(alloc))
    }
}
