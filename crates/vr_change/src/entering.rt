// Entering a view: the replica leaves its last view and waits for the next to begin.
ghost use Rattle.std.specs.Prelude.{◌≡◌, length, IfOk, OnOk, OnErr};
ghost use Rattle.vr_change.specs.private.Rules.{put_back};
ghost use Rattle.vr_state.specs.Outcome.{to_all};
ghost use Rattle.vr_state.specs.ViewChange.{enter, is_changing_in};
ghost use Rattle.vr_state.specs.declared.message.PeerMessage.TheVariants.{StartViewChange};
ghost use Rattle.vr_state.specs.Views.{state};

use crate::left::Left;
use std::alloc::{AllocError, Global};
use std::mem::replace;
use vr_state::message::{PeerMessage, Send};
use vr_state::payload::Payload;
use vr_state::replica::Replica;
use vr_state::sending::send_all;
use vr_state::words::Status;

/// A STARTVIEWCHANGE for this view, to all others. Its only error is want of memory.
pub fn tell_all<P: Payload>(
    alloc: Global,
    replica: &Replica<P>,
    view_number: u64,
) -> Result<Vec<Send<P>>, AllocError>
    ensures { IfOk result (λ sends. sends.items ≡ to_all replica.now.count replica.now.index
        (StartViewChange view_number)) }
{
    let message = PeerMessage::StartViewChange { view_number };
    send_all(alloc, replica.count, replica.index, &message)
}

/// Whether the replica changes to this view.
pub fn is_changing_in<P: Drop>(replica: &Replica<P>, view_number: u64) -> bool
    ensures { result ≡ is_changing_in (state replica.now) view_number }
{
    matches!(replica.status, Status::ViewChange) && replica.view_number == view_number
}

/// Enters a view. It costs one number a replica; the log stays whole. At an error nothing has changed.
pub fn enter<P: Drop>(
    alloc: Global,
    replica: &mut Replica<P>,
    view_number: u64,
) -> Result<Left<P>, AllocError>
    ensures ok { OnOk result (state replica.new ≡ enter replica.old.count view_number (state replica.old)) }
    ensures left { IfOk result (λ left. put_back left (enter replica.old.count view_number (state replica.old)) ≡
        state replica.old) }
    ensures counted { IfOk result (λ left. length left.acknowledged.items ≡ replica.old.count) }
    ensures err { OnErr result (state replica.new ≡ state replica.old) }
    ensures index { replica.new.index ≡ replica.old.index }
    ensures count { replica.new.count ≡ replica.old.count }
{
    let acknowledged = vec![in alloc; 0; replica.count as usize]?;
    let left = Left {
        view_number: replica.view_number,
        status: replica.status,
        acknowledged: replace(&mut replica.acknowledged, acknowledged),
        start_view_changes: replace(&mut replica.start_view_changes, Vec::new(alloc)),
        do_view_changes: replace(&mut replica.do_view_changes, Vec::new(alloc)),
    };
    replica.view_number = view_number;
    replica.status = Status::ViewChange;
    Ok(left)
}

/// Goes back to what was left.
pub fn put_back<P: Drop>(replica: &mut Replica<P>, left: Left<P>)
    requires { length left.acknowledged.items ≡ replica.old.count }
    ensures state { state replica.new ≡ put_back left (state replica.old) }
    ensures index { replica.new.index ≡ replica.old.index }
    ensures count { replica.new.count ≡ replica.old.count }
{
    replica.view_number = left.view_number;
    replica.status = left.status;
    replica.acknowledged = left.acknowledged;
    replica.start_view_changes = left.start_view_changes;
    replica.do_view_changes = left.do_view_changes;
}
