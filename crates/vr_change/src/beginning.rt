// The new view begins: its primary has f + 1 DOVIEWCHANGEs, takes the best log, tells the others and answers the
// clients.
ghost use Rattle.std.specs.Prelude.{◌≡◌, ◌++◌, IfOk, OnErr};
ghost use Rattle.vr_change.specs.private.Rules.{begin_view_at, best_at, may_begin_at, note_change_at, start_view_sends_at, try_begin_at};
ghost use Rattle.vr_state.specs.Outcome.{after_sends};
ghost use Rattle.vr_state.specs.Views.{state, outcome};

use crate::choosing::{best, most};
use std::alloc::{AllocError, Global};
use vr_state::log::Log;
use vr_state::message::{Change, Outputs, PeerMessage, Send, Snapshot};
use vr_state::noting::{count_noted, is_noted};
use vr_state::payload::Payload;
use vr_state::replica::Replica;
use vr_state::replies::replies_between;
use vr_state::sending::{copy_change, join, send_all, sending};

/// Notes a DOVIEWCHANGE, the first of its sender, and begins the view if that completes f + 1. The step's messages come
/// after `sends`. At an error nothing has changed.
pub fn note_change<P: Payload>(
    alloc: Global,
    replica: &mut Replica<P>,
    sends: Vec<Send<P>>,
    from: u64,
    change: Change<P>,
) -> Result<Outputs<P>, AllocError>
    ensures step { IfOk result (λ out. outcome replica.new out ≡ after_sends sends.items
        (note_change_at replica.old from change)) }
    ensures store { IfOk result (λ out. out.store ≡ None) }
    ensures view { replica.new.view_number ≡ replica.old.view_number }
    ensures err { OnErr result (state replica.new ≡ state replica.old) }
    ensures index { replica.new.index ≡ replica.old.index }
    ensures count { replica.new.count ≡ replica.old.count }
{
    if is_noted(&replica.do_view_changes, from) {
        return try_begin(alloc, replica, sends);
    }
    let noted = replica.do_view_changes.as_slice().len();
    replica.do_view_changes.push((from, change))?;
    match try_begin(alloc, replica, sends) {
        Ok(outputs) => Ok(outputs),
        Err(error) => {
            replica.do_view_changes.truncate(noted);
            Err(error)
        }
    }
}

/// Begins the view if f + 1 DOVIEWCHANGEs are noted, its own among them. At an error nothing has changed.
fn try_begin<P: Payload>(
    alloc: Global,
    replica: &mut Replica<P>,
    sends: Vec<Send<P>>,
) -> Result<Outputs<P>, AllocError>
    ensures step { IfOk result (λ out. outcome replica.new out ≡ after_sends sends.items (try_begin_at replica.old)) }
    ensures store { IfOk result (λ out. out.store ≡ None) }
    ensures view { replica.new.view_number ≡ replica.old.view_number }
    ensures err { OnErr result (state replica.new ≡ state replica.old) }
    ensures index { replica.new.index ≡ replica.old.index }
    ensures count { replica.new.count ≡ replica.old.count }
{
    if !may_begin(replica) {
        return Ok(sending(alloc, sends));
    }
    match copy_best(alloc, replica)? {
        None => Ok(sending(alloc, sends)),
        Some(change) => begin_view(alloc, replica, sends, change),
    }
}

/// Whether f + 1 DOVIEWCHANGEs are noted, its own among them.
fn may_begin<P: Drop>(replica: &Replica<P>) -> bool
    ensures { result ≡ may_begin_at replica.now }
{
    is_noted(&replica.do_view_changes, replica.index)
        && replica.count / 2 < count_noted(&replica.do_view_changes, replica.count)
}

/// The best of the DOVIEWCHANGEs that are noted, in memory of its own. Its only error is want of memory.
fn copy_best<P: Payload>(
    alloc: Global,
    replica: &Replica<P>,
) -> Result<Option<Change<P>>, AllocError>
    ensures { IfOk result (λ change. change ≡ best_at replica.now) }
{
    match best(&replica.do_view_changes, replica.count) {
        None => Ok(None),
        Some(change) => {
            let copied = copy_change(alloc, change)?;
            Ok(Some(copied))
        }
    }
}

/// Adopts the log of this DOVIEWCHANGE, tells the others of the view, and answers what is newly committed. At an error
/// nothing has changed.
fn begin_view<P: Payload>(
    alloc: Global,
    replica: &mut Replica<P>,
    sends: Vec<Send<P>>,
    change: Change<P>,
) -> Result<Outputs<P>, AllocError>
    ensures step { IfOk result (λ out. outcome replica.new out ≡ after_sends sends.items
        (begin_view_at replica.old change)) }
    ensures store { IfOk result (λ out. out.store ≡ None) }
    ensures view { replica.new.view_number ≡ replica.old.view_number }
    ensures err { OnErr result (state replica.new ≡ state replica.old) }
    ensures index { replica.new.index ≡ replica.old.index }
    ensures count { replica.new.count ≡ replica.old.count }
{
    let reported = most(&replica.do_view_changes, replica.count);
    let held = change.log.len() as u64;
    let commit_number = replica.commit_number.max(reported.min(held));
    let replies = replies_between(alloc, &change.log, replica.commit_number, commit_number)?;
    let sends = start_view(alloc, replica, sends, &change.log, commit_number)?;
    let chosen = Snapshot {
        log: change.log,
        commit_number: reported,
    };
    replica.adopt(alloc, replica.view_number, chosen)?;
    Ok(Outputs {
        store: None,
        sends,
        replies,
    })
}

/// These messages, and a STARTVIEW to all others. Its only error is want of memory.
fn start_view<P: Payload>(
    alloc: Global,
    replica: &Replica<P>,
    sends: Vec<Send<P>>,
    log: &Log<P>,
    commit_number: u64,
) -> Result<Vec<Send<P>>, AllocError>
    ensures { IfOk result (λ all. all.items ≡ sends.items ++ start_view_sends_at replica.now log.now commit_number) }
{
    let message = PeerMessage::StartView {
        view_number: replica.view_number,
        held: Snapshot {
            log: log.copy(alloc)?,
            commit_number,
        },
    };
    let started = send_all(alloc, replica.count, replica.index, &message)?;
    join(sends, started)
}
