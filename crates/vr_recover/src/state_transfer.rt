// State transfer: GETSTATE asks for the records of a view from a place on, NEWSTATE brings them.
ghost use Rattle.std.specs.Prelude.{◌≡◌, ◌≤◌, ◌+◌, ◌&&◌, ◌==◌, length, nat_lt, IfOk, OnErr};
ghost use Rattle.vr_recover.specs.Rules.{get_state_at, new_state_at};
ghost use Rattle.vr_recover.specs.private.Rules.{can_answer_at, is_news_at, take_joined_at, take_news_at};
ghost use Rattle.vr_state.specs.State.{is_normal};
ghost use Rattle.vr_state.specs.StateTransfer.{joined, tail_after};
ghost use Rattle.vr_state.specs.Views.{state, outcome, view_to_store};

use std::alloc::{AllocError, Global};
use vr_state::message::{Outputs, PeerMessage, Snapshot};
use vr_state::payload::Payload;
use vr_state::replica::Replica;
use vr_state::sending::{ask_for_state, send_one, sending};
use vr_state::standing::{grown, is_behind, is_recovering};
use vr_state::words::Status;

#[tactic(auto, using(vr_state::proofs::Stores::none_to_store))]
/// What comes with a GETSTATE of the replica with index `from`, which has so many records committed. It copies the
/// records after these alone. Its only error is want of memory.
pub fn on_get_state<P: Payload>(
    alloc: Global,
    replica: &Replica<P>,
    from: u64,
    view_number: u64,
    commit_number: u64,
) -> Result<Outputs<P>, AllocError>
    ensures step { IfOk result (λ out. outcome replica.now out ≡ get_state_at replica.now from view_number
        commit_number) }
    ensures store { IfOk result (λ out. out.store ≡ view_to_store (state replica.now) (state replica.now)) }
{
    if !can_answer(replica, view_number, commit_number) {
        return Ok(sending(alloc, Vec::new(alloc)));
    }
    let tail = copy_tail(alloc, replica, commit_number)?;
    let message = PeerMessage::NewState {
        view_number,
        base: commit_number,
        tail,
    };
    let sends = send_one(alloc, from, message)?;
    Ok(sending(alloc, sends))
}

/// Whether it is normal in this view and has so many records.
fn can_answer<P: Drop>(replica: &Replica<P>, view_number: u64, base: u64) -> bool
    ensures { result ≡ can_answer_at replica.now view_number base }
{
    is_normal_in(replica, view_number) && base <= replica.log.len() as u64
}

/// The log after so many records, and how much of the whole is committed, in memory of its own. Its only error is want
/// of memory.
fn copy_tail<P: Payload>(
    alloc: Global,
    replica: &Replica<P>,
    base: u64,
) -> Result<Snapshot<P>, AllocError>
    requires { base ≤ length replica.now.log }
    ensures { IfOk result (λ tail. tail ≡ tail_after (state replica.now) base) }
{
    let log = replica.log.copy_after(alloc, base as usize)?;
    Ok(Snapshot {
        log,
        commit_number: replica.commit_number,
    })
}

#[tactic(auto, using(vr_state::proofs::Stores::none_to_store))]
/// What comes with a NEWSTATE of the replica with index `from`, whose log has `base` records before the tail. At an
/// error, which is want of memory, nothing has changed.
pub fn on_new_state<P: Payload>(
    alloc: Global,
    replica: &mut Replica<P>,
    from: u64,
    view_number: u64,
    base: u64,
    tail: Snapshot<P>,
) -> Result<Outputs<P>, AllocError>
    ensures step { IfOk result (λ out. outcome replica.new out ≡ new_state_at replica.old from view_number base tail) }
    ensures store { IfOk result (λ out. out.store ≡ view_to_store (state replica.old) (state replica.new)) }
    ensures err { OnErr result (state replica.new ≡ state replica.old) }
    ensures index { replica.new.index ≡ replica.old.index }
    ensures count { replica.new.count ≡ replica.old.count }
{
    if !is_recovering(replica) && is_news(replica, view_number, base, &tail) {
        take_news(alloc, replica, from, view_number, base, tail)
    } else {
        Ok(sending(alloc, Vec::new(alloc)))
    }
}

#[tactic(auto, using(vr_state::proofs::Stores::none_to_store))]
/// Adopts the tail where the records before it are committed here, and else asks its sender for all that come after
/// those that are. At an error nothing has changed.
fn take_news<P: Payload>(
    alloc: Global,
    replica: &mut Replica<P>,
    from: u64,
    view_number: u64,
    base: u64,
    tail: Snapshot<P>,
) -> Result<Outputs<P>, AllocError>
    ensures step { IfOk result (λ out. outcome replica.new out ≡ take_news_at replica.old from view_number base tail) }
    ensures store { IfOk result (λ out. out.store ≡ view_to_store (state replica.old) (state replica.new)) }
    ensures err { OnErr result (state replica.new ≡ state replica.old) }
    ensures index { replica.new.index ≡ replica.old.index }
    ensures count { replica.new.count ≡ replica.old.count }
{
    if base <= replica.commit_number {
        take_joined(alloc, replica, view_number, base, tail)
    } else {
        let sends = ask_for_state(alloc, from, view_number, replica.commit_number)?;
        Ok(sending(alloc, sends))
    }
}

/// Adopts its own first `base` records with this tail as a log of this view, and tells its primary how much that is.
/// Its own records stay where they are. At an error nothing has changed.
fn take_joined<P: Payload>(
    alloc: Global,
    replica: &mut Replica<P>,
    view_number: u64,
    base: u64,
    tail: Snapshot<P>,
) -> Result<Outputs<P>, AllocError>
    ensures step { IfOk result (λ out. outcome replica.new out ≡ take_joined_at replica.old view_number base tail) }
    ensures store { IfOk result (λ out. out.store ≡ view_to_store (state replica.old) (state replica.new)) }
    ensures err { OnErr result (state replica.new ≡ state replica.old) }
    ensures index { replica.new.index ≡ replica.old.index }
    ensures count { replica.new.count ≡ replica.old.count }
{
    let message = PeerMessage::PrepareOk {
        view_number,
        op_number: joined_len(replica, base, &tail),
    };
    let sends = send_one(alloc, view_number % replica.count, message)?;
    let store = grown(replica.view_number, view_number);
    replica.adopt_tail(alloc, view_number, base, tail)?;
    Ok(Outputs {
        store,
        sends,
        replies: Vec::new(alloc),
    })
}

#[tactic(auto, using(crate::proofs::Joining::joined_long))]
/// How many records the joined log has.
fn joined_len<P: Drop>(replica: &Replica<P>, base: u64, tail: &Snapshot<P>) -> u64
    ensures { result ≡ length (joined (state replica.now) base tail.now).log }
{
    base.min(replica.log.len() as u64) + tail.log.len() as u64
}

/// Whether the state is of a view that the replica is behind, or a longer log of its own view.
fn is_news<P: Drop>(replica: &Replica<P>, view_number: u64, base: u64, tail: &Snapshot<P>) -> bool
    ensures { result ≡ is_news_at replica.now view_number base tail.now }
{
    is_behind(replica, view_number)
        || (is_normal_in(replica, view_number) && is_longer(replica, base, tail))
}

/// Whether a log with `base` records before this tail is longer than its own.
fn is_longer<P: Drop>(replica: &Replica<P>, base: u64, tail: &Snapshot<P>) -> bool
    ensures { result ≡ nat_lt (length replica.now.log) (base + length tail.now.log) }
{
    (replica.log.len() as u64) < base.saturating_add(tail.log.len() as u64)
}

/// Whether it is normal in this view.
fn is_normal_in<P: Drop>(replica: &Replica<P>, view_number: u64) -> bool
    ensures { result ≡ (is_normal replica.now.status && replica.now.view_number == view_number) }
{
    matches!(replica.status, Status::Normal) && replica.view_number == view_number
}
