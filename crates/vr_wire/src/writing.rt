//! Writes frames.
ghost use Rattle.std.specs.Prelude.{◌≡◌, ◌≤◌, ◌-◌, ◌∷◌, [], ◌++◌, length, drop, IfOk, IfErr};
ghost use Rattle.view_store.specs.Cluster.{cluster_octets};
ghost use Rattle.vr_state.specs.declared.message.PeerMessage.TheVariants as kind;
ghost use Rattle.vr_wire.specs.Frames.{frame_octets, rest_octets, body_octets, held_octets, number, short, kind_of, limit};
ghost use Rattle.vr_wire.specs.Laws.{HasNoFrame};
ghost use Rattle.vr_wire.specs.Payloads.{IsFrame, written, written_held};
ghost use Rattle.vr_wire.specs.private.Putting.{PutsAlways, PutsWithin, Writes, WritesWithin, most_under};

use crate::error::WireError;
use crate::fitting::message_fits;
use crate::putting::{LIMIT, put_cluster, put_entry, put_held, put_log, put_number, put_perhaps};
use ldap_op::Op;
use std::alloc::Global;
use view_store::Cluster;
use vr_state::message::{Change, PeerMessage, Response, Snapshot};
use vr_state::words::LogEntry;

/// The version of frames that are written.
pub const VERSION: u8 = 2;

/// The fewest octets of a record.
pub const ENTRY_LEN: usize = 29;

/// Enough octets for all of a message but its records.
const HEAD_ROOM: usize = 64;

/// Two numbers.
fn put_two(out: &mut Vec<u8>, first: u64, second: u64) -> Result<(), WireError>
    ensures spelled { PutsAlways result out.old.items out.new.items (number first ++ number second) }
    ensures kept { out.new.items ≡ out.old.items ++ drop (length out.old.items) out.new.items }
{
    put_number(out, first)?;
    put_number(out, second)
}

#[tactic(auto, using(crate::proofs::PutLaws::longer_by, crate::proofs::PutLaws::memory))]
fn put_prepare<const LIMIT: usize>(
    alloc: Global,
    out: &mut Vec<u8>,
    view_number: u64,
    entry: &LogEntry<Op>,
    op_number: u64,
    commit_number: u64,
) -> Result<(), WireError>
    ensures spelled { PutsWithin (most_under LIMIT) result out.old.items out.new.items
        (body_octets (written (kind.Prepare view_number entry.now op_number commit_number))) }
    ensures kept { out.new.items ≡ out.old.items ++ drop (length out.old.items) out.new.items }
{
    put_number(out, view_number)?;
    put_two(out, op_number, commit_number)?;
    put_entry::<LIMIT>(alloc, out, entry)
}

#[tactic(auto, using(crate::proofs::PutLaws::longer_by, crate::proofs::PutLaws::memory))]
fn put_do_view_change<const LIMIT: usize>(
    alloc: Global,
    out: &mut Vec<u8>,
    view_number: u64,
    change: &Change<Op>,
) -> Result<(), WireError>
    ensures spelled { PutsWithin (most_under LIMIT) result out.old.items out.new.items
        (body_octets (written (kind.DoViewChange view_number change.now))) }
    ensures kept { out.new.items ≡ out.old.items ++ drop (length out.old.items) out.new.items }
{
    put_number(out, view_number)?;
    put_two(out, change.last_normal_view, change.commit_number)?;
    put_log::<LIMIT>(alloc, out, change.log.as_slice())
}

#[tactic(auto, using(crate::proofs::PutLaws::longer_by, crate::proofs::PutLaws::memory))]
fn put_recovery_response<const LIMIT: usize>(
    alloc: Global,
    out: &mut Vec<u8>,
    nonce: u64,
    response: &Response<Op>,
) -> Result<(), WireError>
    ensures spelled { PutsWithin (most_under LIMIT) result out.old.items out.new.items
        (body_octets (written (kind.RecoveryResponse nonce response.now))) }
    ensures kept { out.new.items ≡ out.old.items ++ drop (length out.old.items) out.new.items }
{
    put_two(out, response.view_number, nonce)?;
    put_perhaps::<LIMIT>(alloc, out, &response.held)
}

/// What follows the sender, by kind.
#[tactic(auto, using(crate::proofs::PutLaws::within))]
fn put_body<const LIMIT: usize>(
    alloc: Global,
    out: &mut Vec<u8>,
    message: &PeerMessage<Op>,
) -> Result<(), WireError>
    ensures spelled { PutsWithin (most_under LIMIT) result out.old.items out.new.items
        (body_octets (written message.now)) }
    ensures kept { out.new.items ≡ out.old.items ++ drop (length out.old.items) out.new.items }
{
    match message {
        PeerMessage::Prepare {
            view_number,
            entry,
            op_number,
            commit_number,
        } => put_prepare::<LIMIT>(alloc, out, *view_number, entry, *op_number, *commit_number),
        PeerMessage::PrepareOk {
            view_number,
            op_number,
        } => put_two(out, *view_number, *op_number),
        PeerMessage::Commit {
            view_number,
            commit_number,
        } => put_two(out, *view_number, *commit_number),
        PeerMessage::StartViewChange { view_number } => put_number(out, *view_number),
        PeerMessage::DoViewChange {
            view_number,
            change,
        } => put_do_view_change::<LIMIT>(alloc, out, *view_number, change),
        PeerMessage::StartView { view_number, held } => put_state::<LIMIT>(
            alloc,
            out,
            *view_number,
            held,
        ),
        PeerMessage::GetState {
            view_number,
            commit_number,
        } => put_two(out, *view_number, *commit_number),
        PeerMessage::NewState {
            view_number,
            base,
            tail,
        } => put_new_state::<LIMIT>(alloc, out, *view_number, *base, tail),
        PeerMessage::Recovery { nonce } => put_number(out, *nonce),
        PeerMessage::RecoveryResponse { nonce, response } => {
            put_recovery_response::<LIMIT>(alloc, out, *nonce, response)
        }
    }
}

#[tactic(auto, using(crate::proofs::PutLaws::longer_by, crate::proofs::PutLaws::memory))]
fn put_new_state<const LIMIT: usize>(
    alloc: Global,
    out: &mut Vec<u8>,
    view_number: u64,
    base: u64,
    tail: &Snapshot<Op>,
) -> Result<(), WireError>
    ensures spelled { PutsWithin (most_under LIMIT) result out.old.items out.new.items
        (body_octets (written (kind.NewState view_number base tail.now))) }
    ensures kept { out.new.items ≡ out.old.items ++ drop (length out.old.items) out.new.items }
{
    put_number(out, view_number)?;
    put_two(out, tail.commit_number, base)?;
    put_log::<LIMIT>(alloc, out, tail.log.as_slice())
}

/// A view with a commit-number and a log.
#[tactic(auto, using(crate::proofs::PutLaws::longer_by, crate::proofs::PutLaws::memory))]
fn put_state<const LIMIT: usize>(
    alloc: Global,
    out: &mut Vec<u8>,
    view_number: u64,
    held: &Snapshot<Op>,
) -> Result<(), WireError>
    ensures spelled { PutsWithin (most_under LIMIT) result out.old.items out.new.items
        (number view_number ++ held_octets (written_held held.now)) }
    ensures kept { out.new.items ≡ out.old.items ++ drop (length out.old.items) out.new.items }
{
    put_number(out, view_number)?;
    put_held::<LIMIT>(alloc, out, held)
}

/// The kind of a message.
fn kind_of(message: &PeerMessage<Op>) -> u8
    ensures { result ≡ kind_of message.now }
{
    match message {
        PeerMessage::Prepare { .. } => 1,
        PeerMessage::PrepareOk { .. } => 2,
        PeerMessage::Commit { .. } => 3,
        PeerMessage::StartViewChange { .. } => 4,
        PeerMessage::DoViewChange { .. } => 5,
        PeerMessage::StartView { .. } => 6,
        PeerMessage::Recovery { .. } => 9,
        PeerMessage::RecoveryResponse { .. } => 10,
        PeerMessage::GetState { .. } => 11,
        PeerMessage::NewState { .. } => 12,
    }
}

/// How many octets to make room for at first: enough for a message whose payloads are empty.
fn room_for(message: &PeerMessage<Op>) -> usize {
    let count = match message {
        PeerMessage::Prepare { .. } => 1,
        PeerMessage::DoViewChange { change, .. } => change.log.len(),
        PeerMessage::StartView { held, .. } => held.log.len(),
        PeerMessage::NewState { tail, .. } => tail.log.len(),
        PeerMessage::RecoveryResponse { response, .. } => held_len(response),
        _ => 0,
    };
    HEAD_ROOM + ENTRY_LEN * count.min(LIMIT / ENTRY_LEN)
}

/// How many records a response tells.
fn held_len(response: &Response<Op>) -> usize {
    match &response.held {
        None => 0,
        Some(held) => held.log.len(),
    }
}

/// Four zeros where the length will stand, the version, the cluster's number, the kind and the sender's index.
pub fn put_head(out: &mut Vec<u8>, cluster: Cluster, kind: u8, sender: u8) -> Result<(), WireError>
    ensures spelled { PutsAlways result out.old.items out.new.items
        (0 ∷ 0 ∷ 0 ∷ 0 ∷ 2 ∷ (cluster_octets cluster ++ kind ∷ sender ∷ [])) }
    ensures kept { out.new.items ≡ out.old.items ++ drop (length out.old.items) out.new.items }
{
    out.extend_from_slice(&[0, 0, 0, 0, VERSION])?;
    put_cluster(out, cluster)?;
    out.extend_from_slice(&[kind, sender])?;
    Ok(())
}

/// A frame whose length isn't known yet.
pub fn open_frame<const LIMIT: usize>(
    alloc: Global,
    cluster: Cluster,
    sender: u8,
    message: &PeerMessage<Op>,
) -> Result<Vec<u8>, WireError>
    ensures { WritesWithin (most_under LIMIT) (λ v. v.items) result (0 ∷ 0 ∷ 0 ∷ 0 ∷ rest_octets cluster sender
        (written message.now)) }
{
    let mut out = Vec::with_capacity(alloc, room_for(message))?;
    put_head(&mut out, cluster, kind_of(message), sender)?;
    put_body::<LIMIT>(alloc, &mut out, message)?;
    Ok(out)
}

/// The length is put in the place of the first four octets.
#[tactic(auto, using(crate::proofs::PutLaws::four_set))]
pub fn put_length(frame: &mut Vec<u8>)
    requires few { length frame.old.items ≤ limit }
    requires there { 4 ≤ length frame.old.items }
    ensures { frame.new.items ≡ short (length frame.old.items - 4) ++ drop 4 frame.old.items }
{
    let length = ((frame.len() - 4) as u32).to_be_bytes();
    frame[0] = length[0];
    frame[1] = length[1];
    frame[2] = length[2];
    frame[3] = length[3];
}

/// The one spelling of a message that can be spelled, unless it's over the limit.
fn write_frame(
    alloc: Global,
    cluster: Cluster,
    sender: u8,
    message: &PeerMessage<Op>,
) -> Result<Vec<u8>, WireError>
    ensures spelled { Writes (λ v. v.items) result (frame_octets cluster sender (written message.now)) }
    ensures small { IfOk result (λ v. length v.items ≤ limit) }
{
    let mut frame = open_frame::<LIMIT>(alloc, cluster, sender, message)?;
    if frame.len() > LIMIT {
        return Err(WireError::BadFrame);
    }
    put_length(&mut frame);
    Ok(frame)
}

/// The one spelling of a message of this sender in this cluster. E20 only where it would be over the limit, or a number
/// or an update of the message has no octets. No octet is copied twice but where room is made for more.
pub fn write(
    alloc: Global,
    cluster: Cluster,
    sender: u8,
    message: &PeerMessage<Op>,
) -> Result<Vec<u8>, WireError>
    // What is written is the spelling,
    ensures spelled { IfOk result (λ v. v.items ≡ frame_octets cluster sender (written message.now)) }
    // a frame of this message and of no other.
    ensures frame { IfOk result (λ v. IsFrame cluster sender message.now v.items) }
    // What is refused, want of memory aside, has no frame.
    ensures refused { IfErr result (λ e. HasNoFrame e cluster sender message.now) }
    // Nothing over the limit is written.
    ensures small { IfOk result (λ v. length v.items ≤ limit) }
{
    // prover: a cluster's number is in range
    let _ = cluster.number();
    if !message_fits(message) {
        return Err(WireError::BadFrame);
    }
    write_frame(alloc, cluster, sender, message)
}
