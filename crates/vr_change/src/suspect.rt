// A suspicion: the replica's timer says that the primary may have failed. Nothing of the log is looked at here.
ghost use Rattle.std.specs.Prelude.{◌≡◌, ◌<◌, ◌||◌, not, nat_le, IfOk, OnErr, IsTrue};
ghost use Rattle.vr_change.specs.Rules.{suspect_at};
ghost use Rattle.vr_state.specs.State.{greatest_view, is_recovering};
ghost use Rattle.vr_state.specs.Views.{state, outcome, view_to_store};

use crate::entering::{enter, tell_all};
use std::alloc::{AllocError, Global};
use vr_state::message::Outputs;
use vr_state::payload::Payload;
use vr_state::replica::Replica;
use vr_state::sending::{sending, storing};
use vr_state::standing::is_recovering;

/// The greatest view that is stored: a replica in it suspects nobody.
pub const GREATEST_VIEW: u64 = (1 << 63) - 1;

/// What comes with a suspicion: the replica enters the next view, and says so. At an error, which is want of memory,
/// nothing has changed.
pub fn on_suspect<P: Payload>(
    alloc: Global,
    replica: &mut Replica<P>,
) -> Result<Outputs<P>, AllocError>
    ensures step { IfOk result (λ out. outcome replica.new out ≡ suspect_at replica.old) }
    ensures store { IfOk result (λ out. out.store ≡ view_to_store (state replica.old) (state replica.new)) }
    ensures err { OnErr result (state replica.new ≡ state replica.old) }
    ensures index { replica.new.index ≡ replica.old.index }
    ensures count { replica.new.count ≡ replica.old.count }
{
    if !may_suspect(replica) {
        return Ok(sending(alloc, Vec::new(alloc)));
    }
    let view_number = replica.view_number + 1;
    let sends = tell_all(alloc, replica, view_number)?;
    enter(alloc, replica, view_number)?;
    Ok(storing(view_number, sending(alloc, sends)))
}

/// Whether it may suspect the primary: it doesn't recover, and there is a next view.
fn may_suspect<P: Drop>(replica: &Replica<P>) -> bool
    ensures low { IsTrue result → replica.now.view_number < greatest_view }
    ensures may { result ≡ not (is_recovering replica.now.status || nat_le greatest_view replica.now.view_number) }
{
    !(is_recovering(replica) || GREATEST_VIEW <= replica.view_number)
}
