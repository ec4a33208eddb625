// STARTVIEWCHANGE: another replica changes to a view. No record of a log is looked at here.
ghost use Rattle.std.specs.Prelude.{◌≡◌, IfOk, OnErr};
ghost use Rattle.vr_change.specs.Rules.{start_view_change_at};
ghost use Rattle.vr_change.specs.private.Rules.{note_start_at, start_entering_at, start_in_view_at};
ghost use Rattle.vr_state.specs.Outcome.{after_sends};
ghost use Rattle.vr_state.specs.Views.{state, outcome, view_to_store};

use crate::declaring::declare;
use crate::entering::{enter, is_changing_in, put_back, tell_all};
use std::alloc::{AllocError, Global};
use vr_state::message::{Outputs, Send};
use vr_state::payload::Payload;
use vr_state::replica::Replica;
use vr_state::sending::{sending, storing};
use vr_state::standing::is_recovering;

/// What comes with a STARTVIEWCHANGE of the replica with index `from`. At an error, which is want of memory, nothing
/// has changed.
pub fn on_start_view_change<P: Payload>(
    alloc: Global,
    replica: &mut Replica<P>,
    from: u64,
    view_number: u64,
) -> Result<Outputs<P>, AllocError>
    ensures step { IfOk result (λ out. outcome replica.new out ≡ start_view_change_at replica.old from view_number) }
    ensures store { IfOk result (λ out. out.store ≡ view_to_store (state replica.old) (state replica.new)) }
    ensures err { OnErr result (state replica.new ≡ state replica.old) }
    ensures index { replica.new.index ≡ replica.old.index }
    ensures count { replica.new.count ≡ replica.old.count }
{
    if is_recovering(replica) {
        Ok(sending(alloc, Vec::new(alloc)))
    } else if replica.view_number < view_number {
        enter_and_note(alloc, replica, from, view_number)
    } else {
        note_in_view(alloc, replica, from, view_number)
    }
}

/// Notes the sender, if the replica changes to this view. At an error nothing has changed.
fn note_in_view<P: Payload>(
    alloc: Global,
    replica: &mut Replica<P>,
    from: u64,
    view_number: u64,
) -> Result<Outputs<P>, AllocError>
    ensures step { IfOk result (λ out. outcome replica.new out ≡ start_in_view_at replica.old from view_number) }
    ensures store { IfOk result (λ out. out.store ≡ None) }
    ensures view { replica.new.view_number ≡ replica.old.view_number }
    ensures err { OnErr result (state replica.new ≡ state replica.old) }
    ensures index { replica.new.index ≡ replica.old.index }
    ensures count { replica.new.count ≡ replica.old.count }
{
    if is_changing_in(replica, view_number) {
        note_start(alloc, replica, Vec::new(alloc), from)
    } else {
        Ok(sending(alloc, Vec::new(alloc)))
    }
}

/// Enters the view and notes the sender. At an error nothing has changed.
fn enter_and_note<P: Payload>(
    alloc: Global,
    replica: &mut Replica<P>,
    from: u64,
    view_number: u64,
) -> Result<Outputs<P>, AllocError>
    ensures step { IfOk result (λ out. outcome replica.new out ≡ start_entering_at replica.old from view_number) }
    ensures store { IfOk result (λ out. out.store ≡ Some view_number) }
    ensures view { IfOk result (λ out. replica.new.view_number ≡ view_number) }
    ensures err { OnErr result (state replica.new ≡ state replica.old) }
    ensures index { replica.new.index ≡ replica.old.index }
    ensures count { replica.new.count ≡ replica.old.count }
{
    let sends = tell_all(alloc, replica, view_number)?;
    let left = enter(alloc, replica, view_number)?;
    match note_start(alloc, replica, sends, from) {
        Ok(outputs) => Ok(storing(view_number, outputs)),
        Err(error) => {
            put_back(replica, left);
            Err(error)
        }
    }
}

/// Notes the sender, and makes the DOVIEWCHANGE at the f-th, once. The step's messages come after `sends`. At an error
/// nothing has changed.
fn note_start<P: Payload>(
    alloc: Global,
    replica: &mut Replica<P>,
    sends: Vec<Send<P>>,
    from: u64,
) -> Result<Outputs<P>, AllocError>
    ensures step { IfOk result (λ out. outcome replica.new out ≡ after_sends sends.items
        (note_start_at replica.old from)) }
    ensures store { IfOk result (λ out. out.store ≡ None) }
    ensures view { replica.new.view_number ≡ replica.old.view_number }
    ensures err { OnErr result (state replica.new ≡ state replica.old) }
    ensures index { replica.new.index ≡ replica.old.index }
    ensures count { replica.new.count ≡ replica.old.count }
{
    if replica.start_view_changes.as_slice().contains(&from) {
        return Ok(sending(alloc, sends));
    }
    let noted = replica.start_view_changes.as_slice().len();
    replica.start_view_changes.push(from)?;
    if noted as u64 + 1 != replica.count / 2 {
        return Ok(sending(alloc, sends));
    }
    match declare(alloc, replica, sends) {
        Ok(outputs) => Ok(outputs),
        Err(error) => {
            replica.start_view_changes.truncate(noted);
            Err(error)
        }
    }
}
