// DOVIEWCHANGE: another replica brings what it has into a view. How the view begins stands in `beginning`.
ghost use Rattle.std.specs.Prelude.{◌≡◌, IfOk, OnErr};
ghost use Rattle.vr_change.specs.Rules.{do_view_change_at};
ghost use Rattle.vr_change.specs.private.Rules.{do_entering_at, do_in_view_at, note_change_in_at};
ghost use Rattle.vr_state.specs.Outcome.{after_sends};
ghost use Rattle.vr_state.specs.Views.{state, outcome, view_to_store};

use crate::beginning::note_change;
use crate::entering::{enter, is_changing_in, put_back, tell_all};
use std::alloc::{AllocError, Global};
use vr_state::message::{Change, Outputs, Send};
use vr_state::payload::Payload;
use vr_state::replica::Replica;
use vr_state::sending::{sending, storing};
use vr_state::standing::is_recovering;

/// What comes with a DOVIEWCHANGE of the replica with index `from`. At an error, which is want of memory, nothing has
/// changed.
pub fn on_do_view_change<P: Payload>(
    alloc: Global,
    replica: &mut Replica<P>,
    from: u64,
    view_number: u64,
    change: Change<P>,
) -> Result<Outputs<P>, AllocError>
    ensures step { IfOk result (λ out. outcome replica.new out ≡ do_view_change_at replica.old from view_number
        change) }
    ensures store { IfOk result (λ out. out.store ≡ view_to_store (state replica.old) (state replica.new)) }
    ensures err { OnErr result (state replica.new ≡ state replica.old) }
    ensures index { replica.new.index ≡ replica.old.index }
    ensures count { replica.new.count ≡ replica.old.count }
{
    if is_recovering(replica) {
        Ok(sending(alloc, Vec::new(alloc)))
    } else if replica.view_number < view_number {
        enter_and_note(alloc, replica, from, view_number, change)
    } else {
        note_in_view(alloc, replica, from, view_number, change)
    }
}

/// Notes the DOVIEWCHANGE, if the replica changes to this view. At an error nothing has changed.
fn note_in_view<P: Payload>(
    alloc: Global,
    replica: &mut Replica<P>,
    from: u64,
    view_number: u64,
    change: Change<P>,
) -> Result<Outputs<P>, AllocError>
    ensures step { IfOk result (λ out. outcome replica.new out ≡ do_in_view_at replica.old from view_number change) }
    ensures store { IfOk result (λ out. out.store ≡ None) }
    ensures view { replica.new.view_number ≡ replica.old.view_number }
    ensures err { OnErr result (state replica.new ≡ state replica.old) }
    ensures index { replica.new.index ≡ replica.old.index }
    ensures count { replica.new.count ≡ replica.old.count }
{
    if is_changing_in(replica, view_number) {
        note_at_primary(alloc, replica, Vec::new(alloc), from, view_number, change)
    } else {
        Ok(sending(alloc, Vec::new(alloc)))
    }
}

/// Enters the view and notes the DOVIEWCHANGE, if the replica is the primary of the view. At an error nothing has
/// changed.
fn enter_and_note<P: Payload>(
    alloc: Global,
    replica: &mut Replica<P>,
    from: u64,
    view_number: u64,
    change: Change<P>,
) -> Result<Outputs<P>, AllocError>
    ensures step { IfOk result (λ out. outcome replica.new out ≡ do_entering_at replica.old from view_number change) }
    ensures store { IfOk result (λ out. out.store ≡ Some view_number) }
    ensures view { IfOk result (λ out. replica.new.view_number ≡ view_number) }
    ensures err { OnErr result (state replica.new ≡ state replica.old) }
    ensures index { replica.new.index ≡ replica.old.index }
    ensures count { replica.new.count ≡ replica.old.count }
{
    let sends = tell_all(alloc, replica, view_number)?;
    let left = enter(alloc, replica, view_number)?;
    match note_at_primary(alloc, replica, sends, from, view_number, change) {
        Ok(outputs) => Ok(storing(view_number, outputs)),
        Err(error) => {
            put_back(replica, left);
            Err(error)
        }
    }
}

/// Notes the DOVIEWCHANGE, if the replica is the primary of the view. The step's messages come after `sends`. At an
/// error nothing has changed.
fn note_at_primary<P: Payload>(
    alloc: Global,
    replica: &mut Replica<P>,
    sends: Vec<Send<P>>,
    from: u64,
    view_number: u64,
    change: Change<P>,
) -> Result<Outputs<P>, AllocError>
    ensures step { IfOk result (λ out. outcome replica.new out ≡ after_sends sends.items
        (note_change_in_at replica.old from view_number change)) }
    ensures store { IfOk result (λ out. out.store ≡ None) }
    ensures view { replica.new.view_number ≡ replica.old.view_number }
    ensures err { OnErr result (state replica.new ≡ state replica.old) }
    ensures index { replica.new.index ≡ replica.old.index }
    ensures count { replica.new.count ≡ replica.old.count }
{
    if view_number % replica.count == replica.index {
        note_change(alloc, replica, sends, from, change)
    } else {
        Ok(sending(alloc, sends))
    }
}
