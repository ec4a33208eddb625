//! Reads the bodies of frames, by kind.
ghost use Rattle.std.specs.Prelude.{◌≡◌};
ghost use Rattle.vr_wire.specs.private.Cutting.{Gives, only_number, only_two, only_state, cut_body, cut_prepare, cut_prepare_ok, cut_commit};
ghost use Rattle.vr_wire.specs.private.Cutting.{cut_start_view_change, cut_do_view_change, cut_start_view, cut_get_state, cut_new_state, cut_recovery};
ghost use Rattle.vr_wire.specs.private.Cutting.{cut_recovery_response};

use crate::cutting::{cut_entry, cut_number, cut_three, cut_two};
use crate::error::WireError;
use crate::logs::{cut_held, cut_log, cut_perhaps};
use crate::octets::Octets;
use std::alloc::Global;
use vr_state::message::{Change, PeerMessage, Response, Snapshot};

#[tactic(auto, unfolding(crate::specs::private::Cutting::only_number))]
fn only_number(octets: &[u8]) -> Result<u64, WireError>
    ensures { Gives (λ n. n) result (only_number octets.now) }
{
    let (number, rest) = cut_number(octets)?;
    if rest.is_empty() {
        Ok(number)
    } else {
        Err(WireError::BadFrame)
    }
}

#[tactic(auto, unfolding(crate::specs::private::Cutting::only_two))]
fn only_two(octets: &[u8]) -> Result<(u64, u64), WireError>
    ensures { Gives (λ n. n) result (only_two octets.now) }
{
    let (numbers, rest) = cut_two(octets)?;
    if rest.is_empty() {
        Ok(numbers)
    } else {
        Err(WireError::BadFrame)
    }
}

#[tactic(auto, unfolding(crate::specs::private::Cutting::only_state))]
fn only_state(alloc: Global, octets: &[u8]) -> Result<(u64, Snapshot<Octets<'_>>), WireError>
    ensures { Gives (λ s. s) result (only_state octets.now) }
{
    let (view_number, rest) = cut_number(octets)?;
    let (held, rest) = cut_held(alloc, rest)?;
    if rest.is_empty() {
        Ok((view_number, held))
    } else {
        Err(WireError::BadFrame)
    }
}

#[tactic(auto, unfolding(crate::specs::private::Cutting::cut_prepare))]
fn cut_prepare(octets: &[u8]) -> Result<PeerMessage<Octets<'_>>, WireError>
    ensures { Gives (λ m. m) result (cut_prepare octets.now) }
{
    let ((view_number, (op_number, commit_number)), rest) = cut_three(octets)?;
    let (entry, rest) = cut_entry(rest)?;
    if rest.is_empty() {
        Ok(PeerMessage::Prepare {
            view_number,
            entry,
            op_number,
            commit_number,
        })
    } else {
        Err(WireError::BadFrame)
    }
}

#[tactic(auto, unfolding(crate::specs::private::Cutting::cut_do_view_change))]
fn cut_do_view_change(alloc: Global, octets: &[u8]) -> Result<PeerMessage<Octets<'_>>, WireError>
    ensures { Gives (λ m. m) result (cut_do_view_change octets.now) }
{
    let ((view_number, (last_normal_view, commit_number)), rest) = cut_three(octets)?;
    let (log, rest) = cut_log(alloc, rest)?;
    if rest.is_empty() {
        let change = Change {
            log,
            last_normal_view,
            commit_number,
        };
        Ok(PeerMessage::DoViewChange {
            view_number,
            change,
        })
    } else {
        Err(WireError::BadFrame)
    }
}

#[tactic(auto, unfolding(crate::specs::private::Cutting::cut_recovery_response))]
fn cut_recovery_response(alloc: Global, octets: &[u8]) -> Result<PeerMessage<Octets<'_>>, WireError>
    ensures { Gives (λ m. m) result (cut_recovery_response octets.now) }
{
    let ((view_number, nonce), rest) = cut_two(octets)?;
    let (held, rest) = cut_perhaps(alloc, rest)?;
    if rest.is_empty() {
        let response = Response { view_number, held };
        Ok(PeerMessage::RecoveryResponse { nonce, response })
    } else {
        Err(WireError::BadFrame)
    }
}

#[tactic(auto, unfolding(crate::specs::private::Cutting::cut_prepare_ok))]
fn cut_prepare_ok(octets: &[u8]) -> Result<PeerMessage<Octets<'_>>, WireError>
    ensures { Gives (λ m. m) result (cut_prepare_ok octets.now) }
{
    let (view_number, op_number) = only_two(octets)?;
    Ok(PeerMessage::PrepareOk {
        view_number,
        op_number,
    })
}

#[tactic(auto, unfolding(crate::specs::private::Cutting::cut_commit))]
fn cut_commit(octets: &[u8]) -> Result<PeerMessage<Octets<'_>>, WireError>
    ensures { Gives (λ m. m) result (cut_commit octets.now) }
{
    let (view_number, commit_number) = only_two(octets)?;
    Ok(PeerMessage::Commit {
        view_number,
        commit_number,
    })
}

#[tactic(auto, unfolding(crate::specs::private::Cutting::cut_start_view_change))]
fn cut_start_view_change(octets: &[u8]) -> Result<PeerMessage<Octets<'_>>, WireError>
    ensures { Gives (λ m. m) result (cut_start_view_change octets.now) }
{
    let view_number = only_number(octets)?;
    Ok(PeerMessage::StartViewChange { view_number })
}

#[tactic(auto, unfolding(crate::specs::private::Cutting::cut_get_state))]
fn cut_get_state(octets: &[u8]) -> Result<PeerMessage<Octets<'_>>, WireError>
    ensures { Gives (λ m. m) result (cut_get_state octets.now) }
{
    let (view_number, commit_number) = only_two(octets)?;
    Ok(PeerMessage::GetState {
        view_number,
        commit_number,
    })
}

#[tactic(auto, unfolding(crate::specs::private::Cutting::cut_recovery))]
fn cut_recovery(octets: &[u8]) -> Result<PeerMessage<Octets<'_>>, WireError>
    ensures { Gives (λ m. m) result (cut_recovery octets.now) }
{
    let nonce = only_number(octets)?;
    Ok(PeerMessage::Recovery { nonce })
}

#[tactic(auto, unfolding(crate::specs::private::Cutting::cut_start_view))]
fn cut_start_view(alloc: Global, octets: &[u8]) -> Result<PeerMessage<Octets<'_>>, WireError>
    ensures { Gives (λ m. m) result (cut_start_view octets.now) }
{
    let (view_number, held) = only_state(alloc, octets)?;
    Ok(PeerMessage::StartView { view_number, held })
}

#[tactic(auto, unfolding(crate::specs::private::Cutting::cut_new_state))]
fn cut_new_state(alloc: Global, octets: &[u8]) -> Result<PeerMessage<Octets<'_>>, WireError>
    ensures { Gives (λ m. m) result (cut_new_state octets.now) }
{
    let ((view_number, (commit_number, base)), rest) = cut_three(octets)?;
    let (log, rest) = cut_log(alloc, rest)?;
    if rest.is_empty() {
        let tail = Snapshot { log, commit_number };
        Ok(PeerMessage::NewState {
            view_number,
            base,
            tail,
        })
    } else {
        Err(WireError::BadFrame)
    }
}

/// The message of this kind whose body these octets are.
pub fn cut_body(
    alloc: Global,
    kind: u8,
    octets: &[u8],
) -> Result<PeerMessage<Octets<'_>>, WireError>
    ensures { Gives (λ m. m) result (cut_body kind octets.now) }
{
    match kind {
        1 => cut_prepare(octets),
        2 => cut_prepare_ok(octets),
        3 => cut_commit(octets),
        4 => cut_start_view_change(octets),
        5 => cut_do_view_change(alloc, octets),
        6 => cut_start_view(alloc, octets),
        9 => cut_recovery(octets),
        10 => cut_recovery_response(alloc, octets),
        11 => cut_get_state(octets),
        12 => cut_new_state(alloc, octets),
        _ => Err(WireError::BadFrame),
    }
}
