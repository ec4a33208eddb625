// COMMIT: a backup learns how much is committed.
ghost use Rattle.std.specs.Prelude.{◌≡◌, IfOk, OnErr};
ghost use Rattle.vr_normal.specs.Rules.{on_commit_at};
ghost use Rattle.vr_normal.specs.private.Rules.{ask_if_short_at};
ghost use Rattle.vr_state.specs.Views.{state, outcome, view_to_store};

use std::alloc::{AllocError, Global};
use vr_state::message::{Outputs, Send};
use vr_state::payload::Payload;
use vr_state::replica::Replica;
use vr_state::sending::{ask_for_state, sending};
use vr_state::standing::{commit_to, committed, follows, is_behind};

/// What comes with a COMMIT of the replica with index `from`. At an error, which is want of memory, nothing has
/// changed. It looks at no record.
pub fn on_commit<P: Payload>(
    alloc: Global,
    replica: &mut Replica<P>,
    from: u64,
    view_number: u64,
    commit_number: u64,
) -> Result<Outputs<P>, AllocError>
    ensures step { IfOk result (λ out. outcome replica.new out ≡ on_commit_at replica.old from view_number
        commit_number) }
    ensures store { IfOk result (λ out. out.store ≡ view_to_store (state replica.old) (state replica.new)) }
    ensures err { OnErr result (state replica.new ≡ state replica.old) }
    ensures index { replica.new.index ≡ replica.old.index }
    ensures count { replica.new.count ≡ replica.old.count }
{
    if is_behind(replica, view_number) {
        let sends = ask_for_state(alloc, from, view_number, replica.commit_number)?;
        Ok(sending(alloc, sends))
    } else if follows(replica, view_number) {
        let sends = ask_if_short(alloc, replica, from, view_number, commit_number)?;
        commit_to(replica, commit_number);
        Ok(sending(alloc, sends))
    } else {
        Ok(sending(alloc, Vec::new(alloc)))
    }
}

/// A GETSTATE, if the log has fewer records than are committed, from those on that are committed here by then. Its only
/// error is want of memory.
fn ask_if_short<P: Payload>(
    alloc: Global,
    replica: &Replica<P>,
    from: u64,
    view_number: u64,
    commit_number: u64,
) -> Result<Vec<Send<P>>, AllocError>
    ensures { IfOk result (λ sends. sends.items ≡ ask_if_short_at replica.now from view_number commit_number) }
{
    let held = replica.log.len() as u64;
    if held < commit_number {
        let by_then = committed(replica, held, commit_number);
        ask_for_state(alloc, from, view_number, by_then)
    } else {
        Ok(Vec::new(alloc))
    }
}
